//! How a run ends.

use sg_calls::Fault;

/// Why a run ended.
#[derive(Clone, Copy, Debug, PartialEq, Eq)]
pub enum Cause {
    /// The script ran to its end, or to `quit;`, and no statement was refused.
    Ok,
    /// The script ran to its end, or to `quit;`, past statements that were refused.
    Refusals {
        /// How many there were.
        count: u64,
        /// The line of the last one, from 1.
        line: u64,
    },
    /// The words are not accepted.
    Usage,
    /// The source failed, and no statement inside the bytes read ends the run.
    ReadFault,
    /// As many bytes were taken as a script may have, and no statement inside them ends the run.
    Overlong,
    /// A sink failed.
    WriteFault,
    /// A statement was refused, by another fault than Budget, and ended the run.
    Script {
        /// Its fault.
        fault: Fault,
        /// Its line, from 1.
        line: u64,
    },
    /// A statement was refused since it asked for more than the budget, and ended the run.
    Budget {
        /// Its line, from 1.
        line: u64,
    },
    /// Memory was wanting.
    Memory,
}

/// How a run ended: the status for the shell, and why.
#[derive(Clone, Copy, Debug, PartialEq, Eq)]
pub struct Ending {
    /// 0 to 6.
    pub status: u8,
    /// What ended the run.
    pub cause: Cause,
}

impl Cause {
    ghost use Rattle.std.specs.Prelude.{◌≡◌};
    ghost use Rattle.sgps_cli.specs.Causes.{status_of};

    /// The status that the program ends with.
    pub fn status(&self) -> u8
        ensures { result ≡ status_of self.now }
    {
        match self {
            Cause::Ok => 0,
            Cause::Refusals { .. } | Cause::Script { .. } => 1,
            Cause::Usage => 2,
            Cause::ReadFault | Cause::Overlong => 3,
            Cause::WriteFault => 4,
            Cause::Memory => 5,
            Cause::Budget { .. } => 6,
        }
    }
}

ghost use Rattle.std.specs.Prelude.{◌≡◌};
ghost use Rattle.sg_play.specs.FaultLines.{name_of};

/// The name of a fault, as it is printed.
pub fn fault_name(fault: Fault) -> &'static [u8]
    ensures { result.now ≡ name_of fault }
{
    match fault {
        Fault::Syntax => b"Syntax",
        Fault::TooLong => b"TooLong",
        Fault::UnknownName => b"UnknownName",
        Fault::WrongType => b"WrongType",
        Fault::WrongCount => b"WrongCount",
        Fault::Overflow => b"Overflow",
        Fault::BadArgument => b"BadArgument",
        Fault::TooLarge => b"TooLarge",
        Fault::TooMany => b"TooMany",
        Fault::IndexOut => b"IndexOut",
        Fault::Budget => b"Budget",
        Fault::Depth => b"Depth",
    }
}
