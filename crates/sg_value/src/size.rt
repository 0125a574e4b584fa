//! How large values are.

ghost use Rattle.std.specs.Prelude.{◌≡◌, ◌-◌, ◌^◌, min};
ghost use Rattle.sg_value.specs.Data.{weight_of, weight_of_all, depth_of, depth_of_all};
ghost use Rattle.sg_value.specs.Plain.{contents, contents_of_all};

use crate::value::Value;

/// How many values it is made of: 1, and for a list the weights of its entries too; 2^64 - 1 where that is more. It
/// takes one step.
pub fn weight(v: &Value) -> u64
    ensures { result ≡ min (weight_of (contents v.now)) (2 ^ 64 - 1) }
{
    match v {
        Value::List(items) => items.weight().saturating_add(1),
        _ => 1,
    }
}

/// How deep lists nest: 0 where it is no list, and 1 for the empty list; 2^64 - 1 where it is more. It takes one step.
pub fn depth(v: &Value) -> u64
    ensures { result ≡ min (depth_of (contents v.now)) (2 ^ 64 - 1) }
{
    match v {
        Value::List(items) => items.depth().saturating_add(1),
        _ => 0,
    }
}

/// The weight of all entries, 2^64 - 1 where it is more.
pub fn total_weight(entries: &[Value]) -> u64
    ensures { result ≡ min (weight_of_all (contents_of_all entries.now)) (2 ^ 64 - 1) }
{
    let mut total = 0u64;
    for entry in entries {
        total = total.saturating_add(weight(entry));
    }
    total
}

/// The greatest depth of the entries, 2^64 - 1 where it is more.
pub fn greatest_depth(entries: &[Value]) -> u64
    ensures { result ≡ min (depth_of_all (contents_of_all entries.now)) (2 ^ 64 - 1) }
{
    let mut deepest = 0u64;
    for entry in entries {
        deepest = deepest.max(depth(entry));
    }
    deepest
}
