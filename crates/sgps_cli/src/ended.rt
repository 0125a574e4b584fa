//! What ended a run, before its last lines are written.

ghost use Rattle.std.specs.Prelude.{◌≡◌, ◌&&◌, None, Some, if◌then◌else◌};
ghost use Rattle.sgps_cli.specs.Statistics.{tells_counts};

use crate::ending::Cause;
use crate::plan::Finish;
use sg_store::Counts;

/// What ended a run, and what is told of its attributes.
#[derive(Clone, Copy)]
pub struct Ended {
    /// Why it ended.
    pub cause: Cause,
    /// How often attributes were asked for and made, where that is told.
    pub counts: Option<Counts>,
}

impl Ended {
    /// An end of which no counts are told.
    pub fn bare(cause: Cause) -> Ended
        ensures cause { result.cause ≡ cause }
        ensures counts { result.counts ≡ None }
    {
        Ended {
            cause,
            counts: None,
        }
    }
}

/// The end that a play came to: its counts are told where they are wanted, and the script ended the run.
pub fn told(finish: Finish, wanted: bool) -> Ended
    ensures cause { result.cause ≡ finish.cause }
    ensures counts { result.counts ≡ (if wanted && tells_counts finish.cause then Some finish.counts else None) }
{
    Ended {
        cause: finish.cause,
        counts: (wanted && tells_counts(finish.cause)).then_some(finish.counts),
    }
}

/// Whether a run that ends so tells its counts.
fn tells_counts(cause: Cause) -> bool
    ensures { result ≡ tells_counts cause }
{
    match cause {
        Cause::Ok | Cause::Refusals { .. } | Cause::Script { .. } | Cause::Budget { .. } => true,
        Cause::Usage | Cause::ReadFault | Cause::Overlong | Cause::WriteFault | Cause::Memory =>
            false,
    }
}
