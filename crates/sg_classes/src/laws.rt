//! Laws of minimal lists and Apery lists: each is the contract of a function without parameters.

ghost use Rattle.sg_classes.specs.Laws.{AreAperyLists, HasOneMinimalList, TellsMembership};

/// A numerical semigroup has one minimal list of generators (Rosales and Garcia-Sanchez, Theorem 2.7).
pub fn a_numerical_semigroup_has_one_minimal_list()
    ensures { HasOneMinimalList }
{}

/// A number is a member exactly where it is at least the entry of its residue class in an Apery list (Rosales and
/// Garcia-Sanchez, Lemma 2.6).
pub fn the_apery_list_tells_membership()
    ensures { TellsMembership }
{}

/// A list meets Kunz's conditions exactly where it is the Apery list of a numerical semigroup modulo a member (Rosales
/// and Garcia-Sanchez, Numerical Semigroups, 2009).
pub fn the_lists_of_kunz_are_the_apery_lists()
    ensures { AreAperyLists }
{}
