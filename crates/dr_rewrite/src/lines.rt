//! The lines that tell a plan's queries.

ghost use Rattle.std.specs.Prelude.{◌≡◌, ◌++◌, codes, map, string_bytes, OnOk};
ghost use Rattle.dr_partials.specs.RewritingText as meant;
ghost use Rattle.dr_rewrite.specs.Lines as written;

use crate::columns::key_names;
use crate::condition::push_condition;
use crate::leaf_items::{key_paths, leaf_items};
use crate::lists::push_listed;
use crate::merging::{push_inner_aggregates, root_items};
use crate::paths::Names;
use crate::record_items::record_items;
use dr_memory::NoMemory;
use dr_plan::{Plan, Selection};
use std::alloc::{AllocError, Global};

/// Appends SELECT, items, and the table.
fn push_select(items: &[String], table: &str, out: &mut String) -> Result<(), AllocError>
    ensures { OnOk result (string_bytes out.new
        ≡ string_bytes out.old ++ (codes "SELECT "
        ++ (meant.commas (map string_bytes items.now) ++ (codes " FROM " ++ table.now)))) }
{
    out.push_str("SELECT ")?;
    push_listed(items, out)?;
    out.push_str(" FROM ")?;
    out.push_str(table)
}

/// Appends GROUP BY and keys, where there are any.
fn push_group_by(keys: &[String], out: &mut String) -> Result<(), AllocError>
    ensures { OnOk result (string_bytes out.new
        ≡ string_bytes out.old ++ meant.group_by_text (map string_bytes keys.now)) }
{
    match keys {
        [] => Ok(()),
        _ => {
            out.push_str(" GROUP BY ")?;
            push_listed(keys, out)
        }
    }
}

/// Appends the query of leaf servers over a table.
pub(crate) fn push_leaf_line(
    alloc: Global,
    table: &str,
    plan: &Plan,
    names: &Names<'_>,
    out: &mut String,
) -> Result<(), NoMemory>
    ensures { OnOk result (string_bytes out.new ≡ string_bytes out.old ++ written.leaf_line names.now table.now
        (plan.now).test.items (plan.now).joining (plan.now).selection) }
{
    match &plan.selection {
        Selection::Objects(items, _) => {
            let texts = record_items(alloc, items, names)?;
            push_select(&texts, table, out)?;
            push_condition(&plan.test, &plan.joining, names, out)?;
            Ok(())
        }
        Selection::Groups(keys, aggregates, _) => {
            let texts = leaf_items(alloc, keys, aggregates, names)?;
            let paths = key_paths(alloc, keys, names)?;
            push_select(&texts, table, out)?;
            push_condition(&plan.test, &plan.joining, names, out)?;
            push_group_by(&paths, out)?;
            Ok(())
        }
    }
}

/// Appends the query of intermediate servers.
pub(crate) fn push_inner_line(
    alloc: Global,
    selection: &Selection,
    out: &mut String,
) -> Result<(), NoMemory>
    ensures { OnOk result (string_bytes out.new ≡ string_bytes out.old ++ written.inner_line selection.now) }
{
    match selection {
        Selection::Objects(_, _) => {
            out.push_str("CONCAT children")?;
            Ok(())
        }
        Selection::Groups(keys, aggregates, _) => {
            let groups = key_names(alloc, keys)?;
            let mut texts = key_names(alloc, keys)?;
            push_inner_aggregates(alloc, aggregates, &mut texts)?;
            push_select(&texts, "children", out)?;
            push_group_by(&groups, out)?;
            Ok(())
        }
    }
}

/// Appends the query of the root.
pub(crate) fn push_root_line(
    alloc: Global,
    selection: &Selection,
    out: &mut String,
) -> Result<(), NoMemory>
    ensures { OnOk result (string_bytes out.new ≡ string_bytes out.old ++ written.root_line selection.now) }
{
    match selection {
        Selection::Objects(_, _) => {
            out.push_str("CONCAT children")?;
            Ok(())
        }
        Selection::Groups(keys, aggregates, items) => {
            let texts = root_items(alloc, items, aggregates)?;
            let groups = key_names(alloc, keys)?;
            push_select(&texts, "children", out)?;
            push_group_by(&groups, out)?;
            Ok(())
        }
    }
}
