ghost use Rattle.std.specs.Prelude.{◌≡◌, ◌≤◌};
ghost use Rattle.sg_io.specs.Faults.{last_count};

use crate::retry::write_retrying;
use crate::sink::{Sink, SinkFault};

/// Which of the two standard streams a sink writes.
#[derive(Clone, Copy)]
enum Stream {
    Output,
    Error,
}

/// A sink over standard output or standard error. It tells no bytes and is not sure.
#[derive(Drop)]
pub struct StdSink<'a> {
    rt: &'a HostRuntime,
    stream: Stream,
    faults: u64,
    ghost fits: { faults ≤ last_count },
}

impl StdSink<'_> {
    ghost use Rattle.std.specs.Prelude.{true, false};
    ghost use Rattle.sg_io.specs.StdSink.{writes_errors, fault_count};

    /// A sink over standard output.
    pub fn out(rt: &HostRuntime) -> StdSink<'_>
        ensures stream { writes_errors result ≡ false }
        ensures count { fault_count result ≡ 0 }
    {
        StdSink {
            rt,
            stream: Stream::Output,
            faults: 0,
        }
    }

    /// A sink over standard error.
    pub fn err(rt: &HostRuntime) -> StdSink<'_>
        ensures stream { writes_errors result ≡ true }
        ensures count { fault_count result ≡ 0 }
    {
        StdSink {
            rt,
            stream: Stream::Error,
            faults: 0,
        }
    }
}

impl Sink for StdSink<'_> {
    ghost use Rattle.std.specs.Prelude.{None, false};
    ghost use Rattle.sg_io.specs.StdSink.{fault_count};

    ghost taken = { λ _. None };

    ghost faults = { fault_count };

    ghost sure = { λ _. false };

    ghost use Rattle.sg_io.specs.StdLaws.{never};

    ghost count_fits = { λ s. s.fits };

    ghost sure_means = { λ s h. never h };

    /// One call of the system. An error of the system, and a write that takes nothing, is a fault.
    fn write(&mut self, piece: &[u8]) -> Result<usize, SinkFault> {
        let answer = match self.stream {
            Stream::Output => write_retrying(&mut self.rt.stdout(), piece),
            Stream::Error => write_retrying(&mut self.rt.stderr(), piece),
        };
        match answer {
            Ok(count) if count > 0 => Ok(count),
            _ => {
                self.faults = self.faults.saturating_add(1);
                Err(SinkFault::Failed)
            }
        }
    }
}
