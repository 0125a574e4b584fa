//! Laws over the definitions, each the contract of a function that does nothing.

ghost use Rattle.sg_meaning.specs.Laws.{OneOutcome, SomeOutcome};

/// A command, an operator or another form is answered, and a statement over variables ends, in at most one way: with
/// one value or fault, one list of variables, one text, and one list of what it asked for.
pub fn one_outcome()
    ensures { OneOutcome }
{}

/// A command, an operator or another form is answered over values whose semigroups and ideals are minimal lists within
/// the limits, and a statement over such variables ends and leaves such variables.
pub fn some_outcome()
    ensures { SomeOutcome }
{}
