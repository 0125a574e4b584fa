//! How a step of the machine ends.

ghost use Rattle.std.specs.Prelude.{◌≡◌};

use sg_calls::{CallFault, Fault};
use std::alloc::AllocError;
use thiserror::Error;

/// What is to come after a statement.
#[derive(Clone, Copy, PartialEq, Eq, Debug)]
pub enum Flow {
    /// The next statement.
    On,
    /// Nothing: the run ends.
    Quit,
}

/// Why a step did not end well.
#[derive(Clone, Copy, PartialEq, Eq, Debug, Error)]
pub enum StepFault {
    /// The script asks for what is refused.
    #[error("{0}")]
    Script(Fault),
    /// The sink failed.
    #[error("the sink failed")]
    Write,
    /// Memory ran out.
    #[error("out of memory")]
    Memory,
}

impl From<AllocError> for StepFault {
    ghost use Rattle.sg_eval.specs.declared.step_fault.StepFault.TheVariants.{Memory};

    ghost from_gives = { λ error fault. fault ≡ Memory };

    fn from(_: AllocError) -> StepFault {
        StepFault::Memory
    }
}

impl From<CallFault> for StepFault {
    ghost use Rattle.sg_eval.specs.Steps.{step_fault};

    ghost from_gives = { λ error fault. fault ≡ step_fault error };

    fn from(error: CallFault) -> StepFault {
        match error {
            CallFault::Script(fault) => StepFault::Script(fault),
            CallFault::Memory(_) => StepFault::Memory,
        }
    }
}
