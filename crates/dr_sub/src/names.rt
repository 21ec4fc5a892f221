//! The names that the items of a result need in its schema.

ghost use Rattle.std.specs.Prelude.{◌≡◌, ◌++◌, ◌∷◌, [], map, option_map, IfOk, OnOk};
ghost use Rattle.std.specs.List.{list_any};
ghost use Rattle.dr_nested.specs.PathView.{lent_path, path_view, step_view};
ghost use Rattle.dr_plan.specs.Views.{record_item_view};
ghost use Rattle.dr_cells.specs.PlanShapes.{plan_lists_view};
ghost use Rattle.dr_sub_meaning.specs.ResultFaults as meant;
ghost use Rattle.dr_sub.specs.ResultNames as meant_names;
ghost use Rattle.dr_sub.specs.ResultNames.{name_view, names_view, lists_to, names_of_item, is_same, is_at_fault};

use crate::chains::chain_of_term;
use crate::field_name::field_name;
use dr_memory::NoMemory;
use dr_nested::{GREATEST_DEPTH, LONGEST_NAME, Path, Step};
use dr_paths::{begins_with, same_path};
use dr_plan::{ListPlan, RecordItem};
use std::alloc::Global;

/// A name in the object of the instances at a path; of a list also the path of the level to which it leads.
#[derive(Drop)]
pub struct ResultName<'a> {
    pub inside: &'a [Step],
    pub name: String,
    pub leads_to: Option<&'a [Step]>,
}

/// Appends the names of the lists that lead to a chain's end from the object at a path, outermost first.
fn push_lists<'a>(
    alloc: Global,
    lists: &'a Vec<ListPlan>,
    at: &'a [Step],
    chain: &[Step],
    names: &mut Vec<ResultName<'a>>,
) -> Result<(), NoMemory>
    ensures { OnOk result (names_view (names.new).items ≡ names_view (names.old).items
        ++ lists_to (map step_view at.now) (plan_lists_view (lists.now).items) (map step_view chain.now)) }
{
    'lists: for list in lists {
        if begins_with(&list.level, chain) {
            names.push(ResultName {
                inside: at,
                name: field_name(alloc, list.name.as_str())?,
                leads_to: Some(&list.level),
            })?;
            return push_lists(alloc, &list.object.lists, &list.level, chain, names);
        }
    }
    Ok(())
}

/// Appends an item's name, and those of the lists that lead to it.
fn push_names<'a>(
    alloc: Global,
    leaves: &'a [Path],
    lists: &'a Vec<ListPlan>,
    item: &'a RecordItem,
    names: &mut Vec<ResultName<'a>>,
) -> Result<(), NoMemory>
    ensures { OnOk result (names_view (names.new).items ≡ names_view (names.old).items
        ++ names_of_item (plan_lists_view (lists.now).items) (record_item_view (map path_view leaves.now) item.now)) }
{
    let inside = chain_of_term(leaves, &item.term);
    let name = field_name(alloc, item.name.as_str())?;
    let leads_to = None;
    names.push(ResultName {
        inside,
        name,
        leads_to,
    })?;
    push_lists(alloc, lists, &[], inside, names)
}

/// Whether two names are those of the same list.
fn is_same_list(one: Option<&[Step]>, other: Option<&[Step]>) -> bool
    ensures { result ≡ meant.is_same_list (option_map lent_path one.entry) (option_map lent_path other.entry) }
{
    match one {
        None => false,
        Some(one) => match other {
            None => false,
            Some(other) => same_path(one, other),
        },
    }
}

/// Whether a name is that of a list that an earlier item has brought in.
fn is_list_among(earlier: &[ResultName<'_>], name: &ResultName<'_>) -> bool
    ensures { result ≡ list_any (λ other. meant.is_same_list (name_view name.now).leads_to (name_view other).leads_to)
        earlier.now }
{
    earlier
        .iter()
        .any(|other| is_same_list(name.leads_to, other.leads_to))
}

/// Whether two names stand in the same object and are the same.
fn is_same_name(one: &ResultName<'_>, other: &ResultName<'_>) -> bool
    ensures { result ≡ is_same (name_view one.now) (name_view other.now) }
{
    same_path(one.inside, other.inside) && one.name == other.name
}

/// Whether an earlier name in the same object is the same.
fn is_taken(earlier: &[ResultName<'_>], name: &ResultName<'_>) -> bool
    ensures { result ≡ list_any (λ other. is_same (name_view name.now) (name_view other)) earlier.now }
{
    earlier.iter().any(|other| is_same_name(name, other))
}

/// Whether a name may not stand behind earlier ones: it is too long, or another field's.
fn is_refused(earlier: &[ResultName<'_>], name: &ResultName<'_>) -> bool
    ensures { result ≡ is_at_fault (names_view earlier.now) (name_view name.now) }
{
    if is_list_among(earlier, name) {
        return false;
    }
    if name.name.len() > LONGEST_NAME {
        return true;
    }
    is_taken(earlier, name)
}

/// Whether one of an item's names may not stand behind earlier ones.
fn has_refused(earlier: &[ResultName<'_>], names: &[ResultName<'_>]) -> bool
    ensures { result ≡ list_any (λ name. is_at_fault (names_view earlier.now) (name_view name)) names.now }
{
    names.iter().any(|name| is_refused(earlier, name))
}

/// Whether one of an item's names may not stand behind earlier ones, or the item lies too deep.
fn have_fault(earlier: &[ResultName<'_>], names: &[ResultName<'_>]) -> bool
    ensures { result ≡ meant_names.have_fault (names_view earlier.now) (names_view names.now) }
{
    if names.len() > GREATEST_DEPTH {
        return true;
    }
    has_refused(earlier, names)
}

/// The number of the first item with such a name.
///
/// Errors: want of memory alone.
pub(crate) fn first_fault(
    alloc: Global,
    leaves: &[Path],
    items: &[RecordItem],
    lists: &Vec<ListPlan>,
) -> Result<Option<usize>, NoMemory>
    ensures { IfOk result (λ o. o ≡ meant_names.first_fault (plan_lists_view (lists.now).items) [] 0
        (map (record_item_view (map path_view leaves.now)) items.now)) }
{
    let mut names = Vec::new(alloc);
    'items: for (number, item) in items.iter().enumerate() {
        let start = names.len();
        push_names(alloc, leaves, lists, item, &mut names)?;
        if have_fault(&names[..start], &names[start..]) {
            return Ok(Some(number));
        }
    }
    Ok(None)
}
