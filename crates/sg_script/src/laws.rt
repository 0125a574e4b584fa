//! Laws of the definitions.

ghost use Rattle.std.specs.Prelude.{◌≡◌, ℕ, List};
ghost use Rattle.sg_script.specs.Outcome.{Outcome, IsReadAs};

/// Each text has one outcome at most.
pub fn one_outcome()
    ensures { (text : List ℕ) (found other : Outcome) → IsReadAs text found → IsReadAs text other → found ≡ other }
{}

/// Each text has an outcome.
pub fn some_outcome()
    ensures { (text : List ℕ) → (o : Outcome) × IsReadAs text o }
{}
