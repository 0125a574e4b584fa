//! Laws over the definitions, each the contract of a function that does nothing.

ghost use Rattle.std.specs.Prelude.{ℕ, ◌↔◌, List};
ghost use Rattle.sg_defs.specs.Listings.{Lists};
ghost use Rattle.sg_defs.specs.Membership.{IsFactorization};
ghost use Rattle.sg_nonunique.specs.Deltas.{IsDelta};
ghost use Rattle.sg_nonunique.specs.Factorizations.{IsLengthIn};
ghost use Rattle.sg_factor.specs.Steps.{IsStepOf};

/// The differences of neighbours in the list of all lengths of an element are its deltas.
pub fn steps_of_all_lengths_are_deltas()
    ensures { (G : List ℕ) (n : ℕ) (l : List ℕ) → Lists (IsLengthIn (IsFactorization G n)) l → (d : ℕ) → IsStepOf l d ↔ IsDelta (IsFactorization G n) d }
{}
