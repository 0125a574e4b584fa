//! Laws over the definitions, each the contract of a function that does nothing.

ghost use Rattle.sg_value.specs.Laws.{EqualityOverOneStore, PlainValuesStay};

/// Over one store, where no two known places stand for the same list, two values have the same contents exactly where
/// their plain values are equal: so there `equal` is equality of plain values.
pub fn equality_over_one_store()
    ensures { EqualityOverOneStore }
{}

/// Where each known place goes on to stand for what it stood for, as in a store that only grows, a value keeps its plain
/// value.
pub fn plain_values_stay()
    ensures { PlainValuesStay }
{}
