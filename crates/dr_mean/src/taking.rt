//! What rows put into groups.

ghost use Rattle.std.specs.Prelude.{◌≡◌, List, option_map, true, IfOk, OnOk};
ghost use Rattle.dr_meaning.specs.Path.{Leaf};
ghost use Rattle.dr_meaning.specs.Record as record_tree;
ghost use Rattle.dr_partials.specs.Putting.{put};
ghost use Rattle.dr_plan.specs.Planned.{Planned};
ghost use Rattle.dr_group.specs.Groups.{taken_view};
ghost use Rattle.dr_group.specs.Partials.{IsPartialOf};
ghost use Rattle.dr_scalar.specs.Slots.{AreValues};
ghost use Rattle.dr_scalar.specs.Views.{evaluated_view};
ghost use Rattle.dr_levels.specs.Views.{lent_value};
ghost use Rattle.dr_mean.specs.Takings.{taking_fits, value_taken, taken_with, PutsRow, PutsRows};

use crate::grouping::Grouping;
use crate::keys::key_of;
use dr_group::{Partial, Taken};
use dr_levels::ValueRef;
use dr_memory::NoMemory;
use dr_plan::Expr;
use dr_rows::Rows;
use dr_scalar::{Evaluated, eval};
use std::alloc::Global;

/// What is taken of each of some rows into its group. The numbers are those of aggregates.
#[derive(Clone, Copy)]
pub enum Taking<'p> {
    /// Nothing: the group is made where there is none.
    Nothing,
    /// The row, whatever its values.
    Row(u32),
    /// The value of an expression in the row.
    Value(u32, &'p Expr),
}

/// The value that is taken of a row, where it isn't NULL.
fn value_of<'v>(
    alloc: Global,
    taking: Taking<'v>,
    row: &[Option<ValueRef<'v>>],
) -> Result<Option<Evaluated<'v>>, NoMemory>
    ensures { IfOk result (λ v. (ls : List Leaf) (r : record_tree.Node) → AreValues ls row.now r
        → taking_fits ls taking.entry ≡ true
        → option_map evaluated_view v ≡ value_taken ls taking.entry r) }
{
    match taking {
        Taking::Nothing | Taking::Row(_) => Ok(None),
        Taking::Value(_, expression) => eval(alloc, expression, row),
    }
}

/// A value or NULL, lent.
fn lent<'a>(value: &'a Option<Evaluated<'_>>) -> Option<ValueRef<'a>>
    ensures { option_map lent_value result ≡ option_map evaluated_view value.now }
{
    match value {
        Some(value) => Some(value.lend()),
        None => None,
    }
}

/// What is taken of a row, if its value is this one.
fn taken_as<'a>(taking: Taking<'_>, value: &'a Option<Evaluated<'_>>) -> Option<Taken<'a>>
    ensures { option_map taken_view result ≡ taken_with taking.entry (option_map evaluated_view value.now) }
{
    match taking {
        Taking::Nothing => None,
        Taking::Row(aggregate) | Taking::Value(aggregate, _) => Some(Taken {
            aggregate,
            value: lent(value),
        }),
    }
}

/// Puts a row into its group. The key tuple is made in a buffer.
fn put_row<'n>(
    alloc: Global,
    groups: Grouping<'_>,
    taking: Taking<'_>,
    row: &[Option<ValueRef<'n>>],
    key: &mut Vec<Option<ValueRef<'n>>>,
    partial: &mut Partial,
) -> Result<(), NoMemory>
    ensures puts { OnOk result (PutsRow groups.entry taking.entry row.now partial.old partial.new) }
    ensures of_plan { (p : Planned) → IsPartialOf p partial.old → IsPartialOf p partial.new }
{
    key_of(groups.keys, row, key)?;
    let value = value_of(alloc, taking, row)?;
    partial.put(alloc, key, taken_as(taking, &value))
}

/// Puts each of some rows into its group, in order.
///
/// Errors: want of memory, or of room for a count, a sum or a number of a group.
pub fn put_rows(
    alloc: Global,
    groups: Grouping<'_>,
    taking: Taking<'_>,
    rows: &Rows<'_>,
    partial: &mut Partial,
) -> Result<(), NoMemory>
    ensures puts { OnOk result (PutsRows groups.entry taking.entry rows.now partial.old partial.new) }
    ensures of_plan { (p : Planned) → IsPartialOf p partial.old → IsPartialOf p partial.new }
{
    let mut key = Vec::new(alloc);
    'rows: for number in 0..rows.len() {
        let row = rows.row(number);
        put_row(alloc, groups, taking, row.values, &mut key, partial)?;
    }
    Ok(())
}
