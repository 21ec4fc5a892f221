//! Triplets: the places of a leaf's column.

ghost use Rattle.std.specs.Prelude.{◌≡◌, IfOk};
ghost use Rattle.dr_nested.specs.Views.{value_view};
ghost use Rattle.dr_levels.specs.Views.{lent_value};

use dr_nested::{NoMemory, Value};
use std::alloc::Global;

/// A repetition level and a definition level, side by side.
#[derive(Clone, Copy, PartialEq, Eq)]
pub struct Levels {
    pub repetition: u8,
    pub definition: u8,
}

/// The value of a leaf, lent.
#[derive(Clone, Copy, PartialEq, Eq)]
pub enum ValueRef<'a> {
    Bool(bool),
    Int(i64),
    Text(&'a str),
}

impl<'a> ValueRef<'a> {
    /// A value, lent.
    #[inline(always)]
    pub fn of(value: &'a Value) -> ValueRef<'a>
        ensures { lent_value result ≡ value_view value.now }
    {
        match value {
            Value::Bool(truth) => ValueRef::Bool(*truth),
            Value::Int(number) => ValueRef::Int(*number),
            Value::Text(text) => ValueRef::Text(text.as_str()),
        }
    }

    /// A value of its own that equals this one.
    ///
    /// Errors: want of memory alone.
    pub fn to_value(self, alloc: Global) -> Result<Value, NoMemory>
        ensures { IfOk result (λ v. value_view v ≡ lent_value self.entry) }
    {
        match self {
            ValueRef::Bool(truth) => Ok(Value::Bool(truth)),
            ValueRef::Int(number) => Ok(Value::Int(number)),
            ValueRef::Text(text) => Ok(Value::Text(String::from_str(alloc, text)?)),
        }
    }
}

/// One place of a leaf's column: the repetition level, the definition level, and the value, which is there where the
/// definition level is the leaf's greatest. A text is lent.
#[derive(Clone, Copy, PartialEq, Eq)]
pub struct Triplet<'a> {
    pub repetition: u8,
    pub definition: u8,
    pub value: Option<ValueRef<'a>>,
}
