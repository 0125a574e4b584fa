//! Laws of all elements of a numerical or an affine semigroup at once: what holds at the elements with two classes, of
//! which there are few, settles every element. No calls.
//!
//! The inductions are proved once, over a family F that gives the factorizations F n of each element n (`IsFamily`, in
//! `proofs/Families`, with `numbers-family` and `vectors-family`): `class-induction`, from which `canonical-presents`,
//! `catenary-from_classes` and `max_delta-from_betti` follow; `canonical-none_spare`, `one-canonical` and
//! `canonical-exists`; classes by places (`PlaceClasses`, `ClassOrder`), and where elements with two classes lie
//! (`betti-candidate`). `DifferenceLemmas` has the least delta. The layers above use these lemmas.
#![tactic(auto)]

pub mod laws;
