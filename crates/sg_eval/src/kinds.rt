//! Values by their kinds, where no row needs it.

ghost use Rattle.std.specs.Prelude.{◌≡◌};
ghost use Rattle.sg_value.specs.Plain.{contents};
ghost use Rattle.sg_rows.specs.Kinds.{as_list};
ghost use Rattle.sg_eval.specs.Truths.{as_truth};

use sg_value::{Items, Value};

/// The truth value, where the value is one.
pub fn truth_of(v: &Value) -> Option<bool>
    ensures { result ≡ as_truth (contents v.now) }
{
    match v {
        Value::Bool(b) => Some(*b),
        _ => None,
    }
}

/// The entries themselves, where the value is a list.
pub fn into_entries(v: Value) -> Option<Items>
    ensures { result ≡ as_list (contents v) }
{
    match v {
        Value::List(entries) => Some(entries),
        _ => None,
    }
}
