//! Values of leaves from JSON values.

ghost use Rattle.std.specs.Prelude.{◌≡◌};
ghost use Rattle.serde_json.specs.View.{view};
ghost use Rattle.dr_meaning.specs.JsonRecord as line;
ghost use Rattle.dr_meaning.specs.JsonRecord.{leaf_value};
ghost use Rattle.dr_meaning.specs.Schema.{bool_kind, int32_kind, int64_kind, text_kind};
ghost use Rattle.dr_nested.specs.Views.{kind_view, value_view};
ghost use Rattle.dr_nested.specs.Faults.{Gives};
ghost use Rattle.dr_levels.specs.Views.{lent_value};
ghost use Rattle.dr_json.specs.Checks.{problem_fault};
ghost use Rattle.dr_json.specs.Faults.{record_fault_view};

use crate::fault::{RecordFault, RecordProblem};
use dr_levels::ValueRef;
use dr_nested::{Kind, NoMemory, Value};
use serde_json::Value as Json;
use std::alloc::Global;

/// The value of a leaf of this kind.
pub fn leaf_of(alloc: Global, kind: Kind, value: &Json) -> Result<Value, RecordFault>
    ensures { Gives value_view record_fault_view (leaf_value (kind_view kind) (view value.now)) result }
{
    match lent_leaf(kind, value) {
        Ok(lent) => match lent.to_value(alloc) {
            Ok(value) => Ok(value),
            Err(NoMemory) => Err(RecordFault::NoMemory),
        },
        Err(problem) => Err(RecordFault::Refused(problem)),
    }
}

/// The value of a leaf of this kind, lent.
pub fn lent_leaf(kind: Kind, value: &Json) -> Result<ValueRef<'_>, RecordProblem>
    ensures { Gives lent_value problem_fault (leaf_value (kind_view kind) (view value.now)) result }
{
    match kind {
        Kind::Bool => bool_of(value),
        Kind::I32 => int32_of(value),
        Kind::I64 => int64_of(value),
        Kind::Text => text_of(value),
    }
}

fn bool_of(value: &Json) -> Result<ValueRef<'_>, RecordProblem>
    ensures { Gives lent_value problem_fault (leaf_value bool_kind (view value.now)) result }
{
    match value.as_bool() {
        Some(truth) => Ok(ValueRef::Bool(truth)),
        None => Err(RecordProblem::WrongKind),
    }
}

/// A number that JSON's reader holds as a whole number.
fn integer_of(value: &Json) -> Option<i128>
    ensures { result ≡ line.integer_of (view value.now) }
{
    match value.as_number() {
        Some(number) => number.as_i128(),
        None => None,
    }
}

fn int32_of(value: &Json) -> Result<ValueRef<'_>, RecordProblem>
    ensures { Gives lent_value problem_fault (leaf_value int32_kind (view value.now)) result }
{
    match integer_of(value) {
        Some(integer) => match i32::try_from(integer) {
            Ok(small) => Ok(ValueRef::Int(i64::from(small))),
            Err(_) => Err(RecordProblem::OutOfRange),
        },
        None => Err(RecordProblem::WrongKind),
    }
}

fn int64_of(value: &Json) -> Result<ValueRef<'_>, RecordProblem>
    ensures { Gives lent_value problem_fault (leaf_value int64_kind (view value.now)) result }
{
    match integer_of(value) {
        Some(integer) => match i64::try_from(integer) {
            Ok(small) => Ok(ValueRef::Int(small)),
            Err(_) => Err(RecordProblem::OutOfRange),
        },
        None => Err(RecordProblem::WrongKind),
    }
}

fn text_of(value: &Json) -> Result<ValueRef<'_>, RecordProblem>
    ensures { Gives lent_value problem_fault (leaf_value text_kind (view value.now)) result }
{
    match value.as_str() {
        Some(text) => Ok(ValueRef::Text(text)),
        None => Err(RecordProblem::WrongKind),
    }
}
