//! What the ids in values stand for.

ghost use Rattle.std.specs.Prelude.{◌≡◌, Some, IsSome};
ghost use Rattle.sg_value.specs.Data.{semigroups, ideals};
ghost use Rattle.sg_value.specs.Plain.{Named, IsAmbientOf, AreGeneratorsOf};

use crate::id::{IdealId, SemId};
use sg_nat::{Ints, Nats};

/// What the ids in values stand for.
pub trait Names {
    /// What the known places of each kind stand for: the minimal generators of semigroups and of ideals.
    ghost named: { Self → Named };

    /// The minimal generators of a semigroup, whose id has to be known.
    fn semigroup(&self, id: SemId) -> &Nats
        requires known { IsSome (named self.now semigroups id) }
        ensures { named self.now semigroups id ≡ Some result.now };

    /// The semigroup that an ideal is one of; the ideal's id has to be known.
    fn ideal_ambient(&self, id: IdealId) -> SemId
        requires known { IsSome (named self.now ideals id) }
        ensures { IsAmbientOf (named self.now) id result };

    /// The minimal generators of an ideal, whose id has to be known.
    fn ideal_generators(&self, id: IdealId) -> &Ints
        requires known { IsSome (named self.now ideals id) }
        ensures { AreGeneratorsOf (named self.now) id result.now };
}
