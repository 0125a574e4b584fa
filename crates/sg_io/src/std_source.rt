ghost use Rattle.std.specs.Prelude.{◌≡◌, ◌≤◌};
ghost use Rattle.sg_io.specs.Faults.{last_count};

use crate::retry::{open_retrying, read_retrying};
use crate::source::{Failed, Source};
use std::fs::File;
use std::rt::Stdin;

/// What a source reads, once it is begun.
#[derive(Drop)]
enum Input {
    Standard(Stdin),
    File(File),
}

/// A source over a real file or standard input. It tells no bytes and is not sure.
#[derive(Drop)]
pub struct StdSource<'a> {
    rt: &'a HostRuntime,
    input: Option<Input>,
    faults: u64,
    ghost fits: { faults ≤ last_count },
}

impl StdSource<'_> {
    ghost use Rattle.std.specs.Prelude.{false};
    ghost use Rattle.sg_io.specs.StdSource.{is_begun, fault_count};

    /// A source that is not begun.
    pub fn new(rt: &HostRuntime) -> StdSource<'_>
        ensures begun { is_begun result ≡ false }
        ensures count { fault_count result ≡ 0 }
    {
        StdSource {
            rt,
            input: None,
            faults: 0,
        }
    }
}

impl Source for StdSource<'_> {
    ghost use Rattle.std.specs.Prelude.{None, false, refl};
    ghost use Rattle.sg_io.specs.StdSource.{is_begun, fault_count};

    ghost inputs = { λ _. None };

    ghost left = { λ _. None };

    ghost begun = { is_begun };

    ghost faults = { fault_count };

    ghost missing = { λ _. 0 };

    ghost sure = { λ _. false };

    ghost use Rattle.sg_io.specs.StdLaws.{none_missing, never};

    ghost counts_fit = { λ s. (s.fits, none_missing) };

    ghost tells_both = { λ s. refl };

    ghost nothing_before = { λ s h. tt };

    ghost sure_tells = { λ s h. never h };

    /// Opens the named file. Standard input is there from the start.
    fn begin(&mut self, name: Option<&str>) -> Result<(), Failed> {
        let opened = match name {
            None => Ok(Input::Standard(self.rt.stdin())),
            Some(path) => open_retrying(self.rt, path).map(Input::File),
        };
        match opened {
            Ok(input) => {
                self.input = Some(input);
                Ok(())
            }
            Err(_) => {
                self.faults = self.faults.saturating_add(1);
                Err(Failed)
            }
        }
    }

    /// One call of the system. An error of the system is a fault.
    fn read(&mut self, buf: &mut [u8]) -> Result<usize, Failed> {
        let answer = match &mut self.input {
            Some(Input::Standard(input)) => read_retrying(input, buf),
            Some(Input::File(file)) => read_retrying(file, buf),
            None => unreachable!(),
        };
        match answer {
            Ok(count) => Ok(count),
            Err(_) => {
                self.faults = self.faults.saturating_add(1);
                Err(Failed)
            }
        }
    }
}
