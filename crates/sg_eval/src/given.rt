//! Values of arguments, put together one by one.

ghost use Rattle.std.specs.Prelude.{◌≡◌, ◌++◌, ◌∷◌, [], IfOk};
ghost use Rattle.sg_eval.specs.Given.{IsWith};

use crate::answers::put;
use sg_value::Value;
use std::alloc::AllocError;

/// The values with one more, or none where one is missing.
pub fn with_one(
    values: Option<Vec<Value>>,
    found: Option<Value>,
) -> Result<Option<Vec<Value>>, AllocError>
    ensures { IfOk result (IsWith values found) }
{
    match (values, found) {
        (Some(all), Some(value)) => Ok(Some(with_value(all, value)?)),
        _ => Ok(None),
    }
}

/// The values with one more.
fn with_value(values: Vec<Value>, value: Value) -> Result<Vec<Value>, AllocError>
    ensures { IfOk result (λ all. all.items ≡ values.items ++ value ∷ []) }
{
    let mut all = values;
    put(&mut all, value)?;
    Ok(all)
}
