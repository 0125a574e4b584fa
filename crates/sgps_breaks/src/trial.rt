//! One run, and how many were tried.

ghost use Rattle.std.specs.Prelude.{◌≡◌, false};
ghost use Rattle.sg_io.specs.MemSource.{is_begun};

use sg_io::{MemSink, MemSource, Sink};
use sgps_cli::run;
use std::alloc::{AllocError, Global};
use std::fmt;

/// How a run ends: its status, and what it wrote to standard error.
#[derive(PartialEq, Eq, Drop)]
pub struct Ended {
    status: u8,
    err: Vec<u8>,
}

impl Ended {
    /// An ending with this status, which writes this to standard error.
    pub fn new(alloc: Global, status: u8, err: &[u8]) -> Result<Ended, AllocError> {
        Ok(Ended {
            status,
            err: err.to_vec(alloc)?,
        })
    }
}

/// How the run over this source, which is not begun, ends that writes to this sink.
pub fn end_of<W: Sink>(
    alloc: Global,
    source: &mut MemSource,
    out: &mut W,
) -> Result<Ended, AllocError>
    requires { is_begun source.old ≡ false }
{
    let mut err = MemSink::new(alloc, &[])?;
    let ending = run(alloc, &[], source, out, &mut err);
    Ended::new(alloc, ending.status, err.bytes())
}

/// How many runs were tried, and how many ended otherwise than they should.
#[derive(Clone, Copy, Default)]
pub struct Tally {
    runs: usize,
    differ: usize,
}

impl Tally {
    /// Counts a run that ended as it should, or did not.
    pub fn count(&mut self, is_right: bool) {
        self.runs = self.runs.saturating_add(1);
        if !is_right {
            self.differ = self.differ.saturating_add(1);
        }
    }
}

impl fmt::Display for Tally {
    fn fmt<W: fmt::Write>(&self, f: &mut fmt::Formatter<W>) -> fmt::Result {
        let (runs, differ) = (self.runs, self.differ);
        write!(f, "{runs} runs, {differ} differ")
    }
}
