//! The paths whose values a query uses.

ghost use Rattle.std.specs.Prelude.{◌≡◌, ◌++◌, List, map, IfOk, OnOk};
ghost use Rattle.dr_meaning.specs.Schema.{Fields};
ghost use Rattle.dr_meaning.specs.Path as path_meaning;
ghost use Rattle.dr_meaning.specs.QueryLeaves as used;
ghost use Rattle.dr_meaning.specs.Binding as binding;
ghost use Rattle.dr_nested.specs.PathView.{lent_path};
ghost use Rattle.dr_resolve.specs.Parts.{AreParts};
ghost use Rattle.dr_planning.specs.Planning as plan;

use dr_memory::NoMemory;
use dr_nested::Step;
use dr_paths::BoundPath;
use dr_resolve::{BoundCondition, BoundItem, BoundParts, BoundTerm};
use std::alloc::Global;

/// The paths of the condition.
fn condition_paths(condition: &Option<BoundCondition>) -> &[BoundPath]
    ensures { result.now ≡ plan.condition_paths condition.now }
{
    match condition {
        None => &[],
        Some(condition) => condition.paths.as_slice(),
    }
}

/// The paths of a term of a record query.
fn record_paths(term: &BoundTerm) -> &[BoundPath]
    ensures { result.now ≡ plan.record_paths term.now }
{
    match term {
        BoundTerm::Value(value) => value.paths.as_slice(),
        BoundTerm::Rows(_) => &[],
        BoundTerm::Aggregated(_, argument, within) => match within {
            None => &[],
            Some(_) => argument.paths.as_slice(),
        },
    }
}

/// The paths of a term of an aggregate query, apart from its keys.
fn group_paths(term: &BoundTerm) -> &[BoundPath]
    ensures { result.now ≡ plan.group_paths term.now }
{
    match term {
        BoundTerm::Value(_) => &[],
        BoundTerm::Rows(_) => &[],
        BoundTerm::Aggregated(_, argument, within) => match within {
            None => argument.paths.as_slice(),
            Some(_) => &[],
        },
    }
}

/// Appends the steps of paths.
fn push_paths<'p>(paths: &'p [BoundPath], used: &mut Vec<&'p [Step]>) -> Result<(), NoMemory>
    ensures { OnOk result (map lent_path (used.new).items ≡ map lent_path (used.old).items ++ plan.steps_at paths.now) }
{
    'paths: for path in paths {
        used.push(path.leaf.steps.as_slice())?;
    }
    Ok(())
}

/// Appends the paths of the items of a record query.
fn push_record_paths<'p>(items: &'p [BoundItem], used: &mut Vec<&'p [Step]>) -> Result<(), NoMemory>
    ensures { OnOk result (map lent_path (used.new).items
        ≡ map lent_path (used.old).items ++ plan.steps_at (plan.record_item_paths items.now)) }
{
    'items: for item in items {
        push_paths(record_paths(&item.term), used)?;
    }
    Ok(())
}

/// Appends the paths of the items of an aggregate query, apart from its keys.
fn push_group_paths<'p>(items: &'p [BoundItem], used: &mut Vec<&'p [Step]>) -> Result<(), NoMemory>
    ensures { OnOk result (map lent_path (used.new).items
        ≡ map lent_path (used.old).items ++ plan.steps_at (plan.group_item_paths items.now)) }
{
    'items: for item in items {
        push_paths(group_paths(&item.term), used)?;
    }
    Ok(())
}

/// Appends the paths of what is selected.
fn push_selection_paths<'p>(
    parts: &'p BoundParts,
    used: &mut Vec<&'p [Step]>,
) -> Result<(), NoMemory>
    ensures { OnOk result (map lent_path (used.new).items
        ≡ map lent_path (used.old).items ++ plan.steps_at
        (plan.selection_paths (parts.now).is_record_query (parts.now).keys.items (parts.now).items.items)) }
{
    if parts.is_record_query {
        push_record_paths(parts.items.as_slice(), used)
    } else {
        push_paths(parts.keys.as_slice(), used)?;
        push_group_paths(parts.items.as_slice(), used)
    }
}

/// The paths whose values a query uses: of its condition, and of its items, or of its keys and then of its items.
///
/// Errors: want of memory alone.
pub fn used_paths(alloc: Global, parts: &BoundParts) -> Result<Vec<&[Step]>, NoMemory>
    ensures { IfOk result (λ v. (fs : Fields) (ls : List path_meaning.Leaf) (b : binding.BoundParts)
        → AreParts fs ls b parts.now → map lent_path v.items ≡ used.used_paths (binding.query_of b)) }
{
    let mut used = Vec::new(alloc);
    push_paths(condition_paths(&parts.condition), &mut used)?;
    push_selection_paths(parts, &mut used)?;
    Ok(used)
}
