//! Equality, order and hashes of lists, which are those of their slices: so lists of one length are ordered
//! lexicographically.

ghost use Rattle.std.specs.Cmp.Lexicographic.{pointwise, slice_cmp, slice_partial_cmp};
ghost use Rattle.std.specs.Cmp.Lexicographic as lists;
ghost use Rattle.std.specs.Hash as fed;

use crate::list::ListOf;
use std::cmp::Ordering;
use std::hash::{Hash, Hasher};

impl<E: PartialEq> PartialEq for ListOf<E> {
    ghost eq = { λ x y. pointwise E.eq x y };

    ghost laws = { lists.lists_per E.PartialEq.laws };

    fn eq(&self, other: &ListOf<E>) -> bool {
        self.as_slice() == other.as_slice()
    }
}

impl<E: Eq> Eq for ListOf<E> {
    ghost laws = { lists.lists_equiv E.Eq.laws };
}

impl<E: PartialOrd> PartialOrd for ListOf<E> {
    ghost partial_cmp = { λ x y. slice_partial_cmp E.partial_cmp x y };

    ghost laws = { lists.lists_po E.PartialOrd.laws };

    fn partial_cmp(&self, other: &ListOf<E>) -> Option<Ordering> {
        self.as_slice().partial_cmp(other.as_slice())
    }
}

impl<E: Ord> Ord for ListOf<E> {
    ghost cmp = { λ x y. slice_cmp E.cmp x y };

    ghost total = { lists.lists_total E.total };

    ghost matches_partial_cmp = { λ x y. lists.lists_agrees E.matches_partial_cmp x y };

    ghost matches_eq = { λ x y. lists.lists_ties E.cmp E.matches_eq x y };

    fn cmp(&self, other: &ListOf<E>) -> Ordering {
        self.as_slice().cmp(other.as_slice())
    }
}

impl<E: Hash> Hash for ListOf<E> {
    ghost hash_input = { λ list. fed.slice E.hash_input list };

    ghost respects_eq = { (fed.items_Alike (record { fed = E.respects_eq })).fed };

    fn hash<H: Hasher>(&self, state: &mut H) {
        self.as_slice().hash(state);
    }
}
