//! Laws over the definitions, each the contract of a function that does nothing.

ghost use Rattle.sg_calls.specs.Laws.{OneAnswer, SomeAnswer};

/// A command answers its arguments, and an operator its operands, in at most one way.
pub fn one_answer()
    ensures { OneAnswer }
{}

/// A command has an answer over arguments whose semigroups and ideals are minimal lists within the limits, an operator
/// over such operands, and the minus sign over all; the semigroups and ideals in it are such too.
pub fn some_answer()
    ensures { SomeAnswer }
{}
