//! How a script is played, and what its play came to.

use crate::ending::Cause;
use sg_store::Counts;

/// How a script is played, as the words want it.
#[derive(Clone, Copy)]
pub struct Plan {
    /// The most steps that a statement may take.
    pub budget: u64,
    /// How many answers of each kind are kept.
    pub capacity: usize,
    /// Whether the run goes on behind refused statements.
    pub keep: bool,
}

/// What a play came to.
#[derive(Clone, Copy)]
pub struct Finish {
    /// What ended it.
    pub cause: Cause,
    /// How often attributes were asked for and made.
    pub counts: Counts,
}

impl Finish {
    ghost use Rattle.std.specs.Prelude.{◌≡◌};

    /// A play that ended so.
    pub fn new(cause: Cause, counts: Counts) -> Finish
        ensures cause { result.cause ≡ cause }
        ensures counts { result.counts ≡ counts }
    {
        Finish { cause, counts }
    }
}
