//! Copies of values.

ghost use Rattle.std.specs.Prelude.{◌≡◌, IfOk};
ghost use Rattle.sg_value.specs.Plain.{contents, contents_of_all};

use crate::value::Value;
use std::alloc::{AllocError, Global};

/// A value with the same contents, in one step: texts and lists are shared.
pub fn try_clone(v: &Value, alloc: Global) -> Result<Value, AllocError>
    ensures { IfOk result (λ copy. contents copy ≡ contents v.now) }
{
    match v {
        Value::Int(n) => Ok(Value::Int(*n)),
        Value::Bool(b) => Ok(Value::Bool(*b)),
        Value::Text(text) => Ok(Value::Text(text.clone()?)),
        Value::List(items) => Ok(Value::List(items.try_clone()?)),
        Value::Ratio(ratio) => Ok(Value::Ratio(*ratio)),
        Value::Fail => Ok(Value::Fail),
        Value::Sem(id) => Ok(Value::Sem(*id)),
        Value::Ideal(id) => Ok(Value::Ideal(*id)),
    }
}

/// The same entries, each shared with those.
pub fn copy_of_all(items: &[Value], alloc: Global) -> Result<Vec<Value>, AllocError>
    ensures { IfOk result (λ copies. contents_of_all copies.items ≡ contents_of_all items.now) }
{
    let mut copies = Vec::with_capacity(alloc, items.len())?;
    for item in items {
        copies.push(try_clone(item, alloc)?)?;
    }
    Ok(copies)
}
