//! Minimal lists as keys.

ghost use Rattle.std.specs.Prelude.{nat_eq, ◌&&◌, ◌++◌};
ghost use Rattle.std.specs.Ordering.{int_eq};
ghost use Rattle.std.proofs.Common.{rules};
ghost use Rattle.std.specs.Hash as fed;
ghost use Rattle.std.specs.Cmp.Lexicographic.{pointwise};
ghost use Rattle.std.specs.Cmp.Rules.{comparing, hashing};

use sg_nat::{Ints, Nats};
use sg_value::SemId;
use std::hash::{Hash, Hasher};

/// A list by which a semigroup is found.
#[derive(Drop)]
pub struct Key {
    pub list: Nats,
}

impl PartialEq for Key {
    ghost eq = { λ a b. pointwise nat_eq a.list b.list };

    ghost laws = { Prim.search (comparing, rules) };

    fn eq(&self, other: &Key) -> bool {
        self.list.as_slice() == other.list.as_slice()
    }
}

impl Eq for Key {
    ghost laws = { Prim.search (comparing, rules) };
}

impl Hash for Key {
    ghost hash_input = { λ key. fed.slice fed.u64 key.list };

    ghost respects_eq = { Prim.search (hashing, rules) };

    fn hash<H: Hasher>(&self, state: &mut H) {
        self.list.as_slice().hash(state);
    }
}

/// The id of its semigroup and the list by which an ideal is found.
#[derive(Drop)]
pub struct IdealKey {
    pub ambient: SemId,
    pub list: Ints,
}

impl PartialEq for IdealKey {
    ghost eq = { λ a b. nat_eq a.ambient b.ambient && pointwise int_eq a.list b.list };

    ghost laws = { Prim.search (comparing, rules) };

    fn eq(&self, other: &IdealKey) -> bool {
        self.ambient.index() == other.ambient.index()
            && self.list.as_slice() == other.list.as_slice()
    }
}

impl Eq for IdealKey {
    ghost laws = { Prim.search (comparing, rules) };
}

impl Hash for IdealKey {
    ghost hash_input = { λ key. fed.usize key.ambient ++ fed.slice fed.i64 key.list };

    ghost respects_eq = { Prim.search (hashing, rules) };

    fn hash<H: Hasher>(&self, state: &mut H) {
        self.ambient.index().hash(state);
        self.list.as_slice().hash(state);
    }
}
