//! Copies of values.

ghost use Rattle.std.specs.Prelude.{◌≡◌, IfOk};
ghost use Rattle.dr_nested.specs.Views.{value_view};

use crate::record::Value;
use std::alloc::{AllocError, Global};

/// A value of its own that equals this one.
///
/// Errors: want of memory alone.
pub fn copy_value(alloc: Global, value: &Value) -> Result<Value, AllocError>
    ensures { IfOk result (λ v. value_view v ≡ value_view value.now) }
{
    match value {
        Value::Bool(truth) => Ok(Value::Bool(*truth)),
        Value::Int(number) => Ok(Value::Int(*number)),
        Value::Text(text) => Ok(Value::Text(String::from_str(alloc, text.as_str())?)),
    }
}
