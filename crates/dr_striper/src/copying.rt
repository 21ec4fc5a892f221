//! Columns copied.

ghost use Rattle.std.specs.Prelude.{◌≡◌, IfOk};
ghost use Rattle.dr_nested.specs.PathView.{paths_view};
ghost use Rattle.dr_levels.specs.Views.{column_view, columns_view, column_form, forms_view, triplets_view, triplets_form};
ghost use Rattle.dr_levels.specs.Columns.{Adds};
ghost use Rattle.dr_striper.specs.Shapes.{AllTaken};
ghost use Rattle.dr_striper.specs.Striping.{leaf_form, leaves_of, forms_of};
ghost use Rattle.dr_striper.specs.Records.{columns_in};
ghost use Rattle.dr_striper.specs.Lent.{Lends, AllLend};
ghost use Rattle.dr_striper.specs.Views.{nulls, twigs_view, shapes_view};
ghost use Rattle.dr_striper.specs.Added.{column_in};
ghost use Rattle.dr_nested.specs.PathView.{path_view};

use crate::branch::Branch;
use crate::lending::lend_field;
use dr_levels::{Column, Levels, Triplets, ValuesRef};
use dr_nested::{NoMemory, Path};
use std::alloc::Global;

/// Appends triplets to a column of the same leaf, which takes them.
fn append_all(column: &mut Column, triplets: Triplets<'_>) -> Result<(), NoMemory>
    requires form { column_form column.old ≡ triplets_form triplets }
    requires taken { AllTaken (triplets_form triplets) (triplets_view triplets) }
    ensures triplets { Adds (column_view column.old) (column_view column.new) (triplets_view triplets.entry) result }
    ensures form { column_form column.new ≡ column_form column.old }
{
    let levels = triplets.levels();
    match triplets.values() {
        ValuesRef::Bools(values) => column.extend_bools(levels, values),
        ValuesRef::Integers(values) => column.extend_integers(levels, values),
        ValuesRef::Texts { bytes, places } => column.extend_texts(levels, bytes, places),
    }
}

/// A column of triplets that a leaf takes.
fn copied(alloc: Global, triplets: Triplets<'_>) -> Result<Column, NoMemory>
    requires { AllTaken (triplets_form triplets) (triplets_view triplets) }
    ensures triplets { IfOk result (λ c. column_view c ≡ triplets_view triplets.entry) }
    ensures form { IfOk result (λ c. column_form c ≡ triplets_form triplets.entry) }
{
    let mut column = Column::new(alloc, triplets.kind(), triplets.greatest_definition());
    append_all(&mut column, triplets)?;
    Ok(column)
}

/// The column of a leaf.
fn copy_field(
    alloc: Global,
    branches: &[Branch],
    above: &[Levels],
    field: &Path,
) -> Result<Column, NoMemory>
    requires lends { Lends (path_view field.now).path (leaf_form (path_view field.now)) (nulls above.now)
        (shapes_view branches.now) (twigs_view branches.now) }
    ensures triplets { IfOk result (λ c. column_view c ≡ column_in (path_view field.now).path (nulls above.now)
        (twigs_view branches.now)) }
    ensures form { IfOk result (λ c. column_form c ≡ leaf_form (path_view field.now)) }
{
    copied(alloc, lend_field(branches, above, field))
}

/// The leaves' columns.
pub(crate) fn copy_columns(
    alloc: Global,
    fields: &[Path],
    levels: &[Levels],
    branches: &[Branch],
) -> Result<Vec<Column>, NoMemory>
    requires lends { AllLend (leaves_of fields.now) (nulls levels.now) (shapes_view branches.now)
        (twigs_view branches.now) }
    ensures columns { IfOk result (λ v. columns_view v.items ≡ columns_in (paths_view fields.now) (nulls levels.now)
        (twigs_view branches.now)) }
    ensures forms { IfOk result (λ v. forms_view v.items ≡ forms_of (leaves_of fields.now)) }
{
    let mut columns = Vec::with_capacity(alloc, fields.len())?;
    'fields: for number in 0..fields.len() {
        columns.push(copy_field(alloc, branches, levels, &fields[number])?)?;
    }
    Ok(columns)
}
