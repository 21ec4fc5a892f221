//! The list of a file's schema elements as one tree, in depth-first order. No group is entered by recursion, so a list
//! may nest as deep as it is long.

ghost use Rattle.std.specs.Prelude.{◌≡◌, ◌≤◌, ◌∷◌, List, map, option_map, OnOk, IfOk, IfSome, Some, None, true, false};
ghost use Rattle.dr_meaning.specs.Schema.{Repetition};
ghost use Rattle.dr_formats.specs.Metadata.{SchemaElement};
ghost use Rattle.dr_formats.specs.FileSchema.{file_schema, repetition_from};
ghost use Rattle.dr_meta.specs.Views.{item_view};
ghost use Rattle.dr_meta.specs.OneTree as one_tree;
ghost use Rattle.dr_meta.specs.OneTree.{leaves_left, and_leaves, size_of_group, still_open};

use crate::count::Count;
use crate::file::SchemaItem;
use dr_memory::NoMemory;
use std::alloc::Global;

/// How many leaves the schema has that a list of elements is; none where it is not one tree. The first element is the
/// root, which has no type; an element with a type is a leaf, any other a group of so many fields; each but the root
/// has a repetition 0, 1 or 2; and no element is left over. It takes time linear in the list, and no stack by its
/// nesting.
///
/// Errors: want of memory alone.
pub fn count_leaves(alloc: Global, items: &[SchemaItem<'_>]) -> Result<Option<usize>, NoMemory>
    ensures { IfOk result (λ n. n ≡ option_map one_tree.count_leaves (file_schema (map item_view items.now))) }
{
    match items.split_first() {
        Some((root, rest)) => leaves_below(alloc, root, rest),
        None => Ok(None),
    }
}

/// The same of a root and the elements behind it.
fn leaves_below(
    alloc: Global,
    root: &SchemaItem<'_>,
    rest: &[SchemaItem<'_>],
) -> Result<Option<usize>, NoMemory>
    ensures { IfOk result (λ n. n ≡ option_map one_tree.count_leaves
        (file_schema (item_view root.now ∷ map item_view rest.now))) }
{
    let Some(fields) = group_size(root) else {
        return Ok(None);
    };
    let mut groups = Vec::new(alloc);
    open_group(&mut groups, fields)?;
    let mut leaves = 0;
    'items: for item in rest {
        match enter(&mut groups, item)? {
            Some(more) => leaves += more,
            None => return Ok(None),
        }
    }
    if groups.is_empty() {
        Ok(Some(leaves))
    } else {
        Ok(None)
    }
}

/// How many fields a group has; none where the element is a leaf or says no number.
pub fn group_size(item: &SchemaItem<'_>) -> Option<u64>
    ensures { result ≡ size_of_group item.now.kind item.now.children }
{
    match (item.kind, item.children) {
        (None, Some(children)) => Some(Count::from_signed(children)?.get()),
        _ => None,
    }
}

/// Whether it is the number of a repetition: REQUIRED 0, OPTIONAL 1, REPEATED 2.
fn is_repetition(repetition: Option<i64>) -> bool
    ensures none { result ≡ false → repetition_from repetition ≡ None }
    ensures some { result ≡ true → (r : Repetition) × (repetition_from repetition ≡ Some r) }
{
    match repetition {
        Some(number) => number == 0 || number == 1 || number == 2,
        None => false,
    }
}

/// Opens a group of so many fields; one without fields is closed at once. Of each open group is kept how many fields it
/// has besides the next.
fn open_group(groups: &mut Vec<u64>, fields: u64) -> Result<(), NoMemory>
    ensures { OnOk result ((es : List SchemaElement) → leaves_left (still_open groups.new.items) es
        ≡ leaves_left (fields ∷ still_open groups.old.items) es) }
{
    if fields > 0 {
        groups.push(fields - 1)?;
    }
    Ok(())
}

/// Takes the next element: how many leaves it is, one or none; or nothing, where no tree goes on with it.
fn enter(groups: &mut Vec<u64>, item: &SchemaItem<'_>) -> Result<Option<usize>, NoMemory>
    ensures step { IfOk result (λ o. (es : List SchemaElement)
        → leaves_left (still_open groups.old.items) (item_view item.now ∷ es)
        ≡ and_leaves o (leaves_left (still_open groups.new.items) es)) }
    ensures one { IfOk result (λ o. IfSome o (λ k. k ≤ 1)) }
{
    let Some(left) = groups.pop() else {
        return Ok(None);
    };
    open_group(groups, left)?;
    if !is_repetition(item.repetition) {
        return Ok(None);
    }
    if item.kind.is_some() {
        return Ok(Some(1));
    }
    match group_size(item) {
        Some(fields) => {
            open_group(groups, fields)?;
            Ok(Some(0))
        }
        None => Ok(None),
    }
}
