//! The statements that were refused and passed, and what they and the last one end a run with.

ghost use Rattle.std.specs.Prelude.{◌≡◌, ◌+◌, ◌<◌};
ghost use Rattle.sg_cut.specs.declared.limits.TheConstants.{SCRIPT_LIMIT};
ghost use Rattle.sgps_cli.specs.Passed.{end_of, refusal_of, with_one};

use crate::ending::Cause;
use sg_calls::Fault;

/// The statements that were refused, and that the run went on behind.
#[derive(Clone, Copy)]
pub struct Passed {
    /// How many there were.
    pub count: u64,
    /// The line of the last one, from 1, where there is one.
    pub line: u64,
}

impl Passed {
    /// One more was refused, in this line.
    pub fn and_one(self, line: u64) -> Passed
        requires { self.count < SCRIPT_LIMIT }
        ensures { result ≡ with_one self line }
    {
        Passed {
            count: self.count + 1,
            line,
        }
    }

    /// The end of a script that was played to its end.
    pub fn end(self) -> Cause
        ensures { result ≡ end_of self }
    {
        if self.count == 0 {
            return Cause::Ok;
        }
        Cause::Refusals {
            count: self.count,
            line: self.line,
        }
    }
}

/// The end of a run at a statement in this line that is refused.
pub fn refusal(fault: Fault, line: u64) -> Cause
    ensures { result ≡ refusal_of fault line }
{
    match fault {
        Fault::Budget => Cause::Budget { line },
        _ => Cause::Script { fault, line },
    }
}
