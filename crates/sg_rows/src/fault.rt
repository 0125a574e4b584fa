//! Why a call gives no value.

ghost use Rattle.std.specs.Prelude.{◌≡◌};
ghost use Rattle.sg_rows.specs.Faults.{fault_number};

use std::alloc::AllocError;
use thiserror::Error;

/// Why a statement is refused.
#[derive(Clone, Copy, PartialEq, Eq, Debug, Error)]
pub enum Fault {
    /// The text is no statement.
    #[error("Syntax")]
    Syntax,
    /// The text of the statement is too long.
    #[error("TooLong")]
    TooLong,
    /// A variable has no value, or there is no such command.
    #[error("UnknownName")]
    UnknownName,
    /// An operand or an argument is of a kind that is not taken.
    #[error("WrongType")]
    WrongType,
    /// A command does not take so many arguments.
    #[error("WrongCount")]
    WrongCount,
    /// An integer is outside of 64 bits.
    #[error("Overflow")]
    Overflow,
    /// An argument is none that the command is defined for.
    #[error("BadArgument")]
    BadArgument,
    /// A number is past a limit.
    #[error("TooLarge")]
    TooLarge,
    /// There are too many factorizations.
    #[error("TooMany")]
    TooMany,
    /// A list has no such entry.
    #[error("IndexOut")]
    IndexOut,
    /// The budget of steps is spent.
    #[error("Budget")]
    Budget,
    /// Lists or statements nest too deep.
    #[error("Depth")]
    Depth,
}

impl Fault {
    /// The number of the fault, from 1 to 12.
    pub fn number(&self) -> u64
        ensures { result ≡ fault_number self.now }
    {
        match self {
            Fault::Syntax => 1,
            Fault::TooLong => 2,
            Fault::UnknownName => 3,
            Fault::WrongType => 4,
            Fault::WrongCount => 5,
            Fault::Overflow => 6,
            Fault::BadArgument => 7,
            Fault::TooLarge => 8,
            Fault::TooMany => 9,
            Fault::IndexOut => 10,
            Fault::Budget => 11,
            Fault::Depth => 12,
        }
    }
}

/// Why a call gives no value.
#[derive(Debug, Drop, Error)]
pub enum CallFault {
    /// The script asks for what is refused.
    #[error("{0}")]
    Script(Fault),
    /// Memory ran out.
    #[error("out of memory")]
    Memory(AllocError),
}

impl From<AllocError> for CallFault {
    ghost use Rattle.std.specs.Prelude.{◌≡◌};
    ghost use Rattle.sg_rows.specs.declared.fault.CallFault.TheVariants.{Memory};

    ghost from_gives = { λ error fault. fault ≡ Memory error };

    fn from(error: AllocError) -> CallFault {
        CallFault::Memory(error)
    }
}
