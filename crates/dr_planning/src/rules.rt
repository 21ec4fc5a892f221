//! The rules of a query above its paths and operators.

ghost use Rattle.std.specs.Prelude.{◌≡◌, List, Option, map, is_some, option_map};
ghost use Rattle.dr_meaning.specs.Schema.{Fields};
ghost use Rattle.dr_meaning.specs.Path as path_meaning;
ghost use Rattle.dr_meaning.specs.Path.{Leaf};
ghost use Rattle.dr_meaning.specs.BoundExpression as meant;
ghost use Rattle.dr_meaning.specs.Binding as binding;
ghost use Rattle.dr_nested.specs.PathView.{step_view};
ghost use Rattle.dr_paths.specs.Related.{Spans};
ghost use Rattle.dr_paths.specs.Views.{bound_path_view};
ghost use Rattle.dr_planning.specs.NamedLevels.{levels_view};
ghost use Rattle.dr_resolve.specs.Faults.{Notes};
ghost use Rattle.dr_resolve.specs.Bound.{IsExpression};
ghost use Rattle.dr_resolve.specs.Items.{AreItems, IsItem, IsTerm, within_view};
ghost use Rattle.dr_resolve.specs.Parts.{AreParts, IsCheckedCondition};
ghost use Rattle.dr_planning.specs.Rules.{IsChain, Keys, unrelated_behind_keys, unrelated_in_condition, unrelated_in_items};
ghost use Rattle.dr_planning.specs.Rules.{NotesDuplicates, NotesRules, NotesTaken, NotesUnrelatedArguments};
ghost use Rattle.dr_planning.specs.Rules.{NotesUngrouped, NotesUngroupedItem};
ghost use Rattle.dr_planning.specs.Rules.{TellsItemName, TellsListName, TellsListNames, TellsTaken, within_in_items};

use crate::listed::Listed;
use crate::names::is_list_between;
use dr_nested::Step;
use dr_paths::{
    BoundPath, begins_with, chain_end, deepest_chain, first_unrelated, longest_chain, same_path,
};
use dr_resolve::{
    BindProblem, BoundCondition, BoundExpression, BoundItem, BoundParts, BoundTerm, BoundWithin,
    FirstFault, place_among,
};

/// What the keys say of the paths behind them: nothing, where one of them couldn't be bound; their longest chain; or
/// the place of the first that isn't related to an earlier one.
#[derive(Clone, Copy)]
enum KeyChain<'k> {
    Unbound,
    Related(&'k [Step]),
    Unrelated(usize),
}

/// Notes the faults of all rules above paths and operators.
pub fn note_rules(levels: &[Listed], parts: &BoundParts, first: &mut FirstFault)
    ensures { NotesRules (levels_view levels.now) parts.now first.old first.new }
{
    note_unrelated(parts, first);
    note_item_rules(parts, first);
    note_duplicates(levels, parts.is_record_query, &parts.items, first);
}

// ---- related paths

/// Notes the first of some paths that isn't related to an earlier one, behind paths of which this is the longest chain.
fn note_paths(longest: &[Step], paths: &[BoundPath], first: &mut FirstFault)
    ensures { (before : List (List path_meaning.Step)) → Spans before (map step_view longest.now)
        → Notes (meant.unrelated_after before (map bound_path_view paths.now)) first.old first.new }
{
    match first_unrelated(longest, paths) {
        Ok(_) => {}
        Err(place) => first.note(place, BindProblem::Unrelated),
    }
}

/// Notes the first path of the condition that isn't related to an earlier one.
fn note_condition(condition: &Option<BoundCondition>, first: &mut FirstFault)
    ensures { (fs : Fields) (ls : List Leaf) (c : meant.Checked (Option meant.BoundExpression))
        → IsCheckedCondition fs ls c condition.now → Notes (unrelated_in_condition c) first.old first.new }
{
    if let Some(condition) = condition {
        note_paths(&[], &condition.paths, first);
    }
}

/// What the keys say of paths behind them.
fn key_chain(parts: &BoundParts) -> KeyChain<'_>
    ensures { (fs : Fields) (ls : List Leaf) (b : binding.BoundParts) → AreParts fs ls b parts.now
        → IsChain (binding.all_passed b.keys) result }
{
    if !parts.has_all_keys {
        return KeyChain::Unbound;
    }
    match first_unrelated(&[], &parts.keys) {
        Ok(longest) => KeyChain::Related(longest),
        Err(place) => KeyChain::Unrelated(place),
    }
}

/// Notes the first key that isn't related to an earlier one.
fn note_keys(chain: KeyChain<'_>, first: &mut FirstFault)
    ensures { (ks : Keys) → IsChain ks chain.entry
        → Notes (binding.where_passed meant.unrelated_among ks) first.old first.new }
{
    match chain {
        KeyChain::Unbound => {}
        KeyChain::Related(_) => {}
        KeyChain::Unrelated(place) => first.note(place, BindProblem::Unrelated),
    }
}

/// Notes the first of the keys, and of some paths behind them, that isn't related to an earlier one.
fn note_behind_keys(chain: KeyChain<'_>, paths: &[BoundPath], first: &mut FirstFault)
    ensures { (ks : Keys) → IsChain ks chain.entry
        → Notes (unrelated_behind_keys (map bound_path_view paths.now) ks) first.old first.new }
{
    match chain {
        KeyChain::Unbound => {}
        KeyChain::Related(longest) => note_paths(longest, paths, first),
        KeyChain::Unrelated(place) => first.note(place, BindProblem::Unrelated),
    }
}

/// Notes the first path of an item that isn't related to an earlier one; those of an aggregate stand behind the keys.
fn note_unrelated_term(chain: KeyChain<'_>, term: &BoundTerm, first: &mut FirstFault)
    ensures { (fs : Fields) (ls : List Leaf) (ks : Keys) (t : binding.BoundTerm) → IsChain ks chain.entry
        → IsTerm fs ls t term.now → Notes (binding.unrelated_in_term ks t) first.old first.new }
{
    match term {
        BoundTerm::Value(value) => note_paths(&[], &value.paths, first),
        BoundTerm::Rows(_) => {}
        BoundTerm::Aggregated(_, argument, _) => note_behind_keys(chain, &argument.paths, first),
    }
}

/// Notes, of each item, the first path that isn't related to an earlier one.
fn note_unrelated_items(chain: KeyChain<'_>, items: &[BoundItem], first: &mut FirstFault)
    ensures { (fs : Fields) (ls : List Leaf) (ks : Keys) (bs : List binding.BoundItem) → IsChain ks chain.entry
        → AreItems fs ls bs items.now → Notes (unrelated_in_items ks bs) first.old first.new }
{
    'items: for item in items {
        note_unrelated_term(chain, &item.term, first);
    }
}

/// Notes, of each argument that stands alone, the first path that isn't related to an earlier one or to the keys.
fn note_unrelated_arguments(
    chain: KeyChain<'_>,
    arguments: &[BoundExpression],
    first: &mut FirstFault,
)
    ensures { NotesUnrelatedArguments chain.entry arguments.now first.old first.new }
{
    'arguments: for argument in arguments {
        note_behind_keys(chain, &argument.paths, first);
    }
}

/// Notes the paths that aren't related to earlier ones: of the condition, of each item, of each argument that stands
/// alone, of the keys.
fn note_unrelated(parts: &BoundParts, first: &mut FirstFault)
    ensures { (fs : Fields) (ls : List Leaf) (b : binding.BoundParts) → AreParts fs ls b parts.now
        → Notes (binding.unrelated_faults b) first.old first.new }
{
    let chain = key_chain(parts);
    note_condition(&parts.condition, first);
    note_unrelated_items(chain, &parts.items, first);
    note_unrelated_arguments(chain, &parts.arguments, first);
    note_keys(chain, first);
}

// ---- items by themselves

/// Whether a node holds the rows of an aggregate's argument.
fn holds_rows(argument: &BoundExpression, within: &BoundWithin) -> bool
    ensures { (fs : Fields) (ls : List Leaf) (e : meant.BoundExpression) → IsExpression fs ls e argument.now → result
        ≡ binding.holds_rows e.expression (within_view within.now) }
{
    within.is_whole && begins_with(&within.node, longest_chain(&argument.paths))
}

/// Notes an aggregate WITHIN a node that doesn't hold its rows, and COUNT(*) WITHIN any.
fn note_within_term(term: &BoundTerm, first: &mut FirstFault)
    ensures { (fs : Fields) (ls : List Leaf) (t : binding.BoundTerm) → IsTerm fs ls t term.now
        → Notes (binding.within_faults t) first.old first.new }
{
    match term {
        BoundTerm::Value(_) => {}
        BoundTerm::Rows(within) => {
            if let Some(within) = within {
                first.note(within.place, BindProblem::BadWithin);
            }
        }
        BoundTerm::Aggregated(_, argument, within) => {
            if let Some(within) = within {
                if !holds_rows(argument, within) {
                    first.note(within.place, BindProblem::BadWithin);
                }
            }
        }
    }
}

/// Notes, of each item, a WITHIN that doesn't hold its rows.
fn note_within(items: &[BoundItem], first: &mut FirstFault)
    ensures { (fs : Fields) (ls : List Leaf) (bs : List binding.BoundItem) → AreItems fs ls bs items.now
        → Notes (within_in_items bs) first.old first.new }
{
    'items: for item in items {
        note_within_term(&item.term, first);
    }
}

/// The place of the key that a value is: it has to be a path.
fn key_place(keys: &[BoundPath], value: &BoundExpression) -> Option<usize>
    ensures { (fs : Fields) (ls : List Leaf) (ks : List meant.BoundPath) (e : meant.BoundExpression)
        → IsExpression fs ls e value.now → map bound_path_view keys.now ≡ ks
        → result ≡ binding.key_of ks e.expression }
{
    if !value.is_path {
        return None;
    }
    match value.paths.as_slice() {
        [] => None,
        [path, ..] => place_among(keys, &path.leaf.steps),
    }
}

/// Whether an item of an aggregate query has a term there: it is a key, or an aggregate without WITHIN.
fn is_grouped(keys: &[BoundPath], term: &BoundTerm) -> bool
    ensures { (fs : Fields) (ls : List Leaf) (ks : List meant.BoundPath) (t : binding.BoundTerm)
        → IsTerm fs ls t term.now → map bound_path_view keys.now ≡ ks
        → result ≡ is_some (binding.group_term ks t) }
{
    match term {
        BoundTerm::Value(value) => key_place(keys, value).is_some(),
        BoundTerm::Rows(within) => within.is_none(),
        BoundTerm::Aggregated(_, _, within) => within.is_none(),
    }
}

/// Notes an item of an aggregate query that has no term there.
fn note_grouping_item(keys: &[BoundPath], item: &BoundItem, first: &mut FirstFault)
    ensures { NotesUngroupedItem keys.now item.now first.old first.new }
{
    if !is_grouped(keys, &item.term) {
        first.note(item.place, BindProblem::NotGrouped);
    }
}

/// Notes each item of an aggregate query that has no term there.
fn note_grouping(keys: &[BoundPath], items: &[BoundItem], first: &mut FirstFault)
    ensures { NotesUngrouped keys.now items.now first.old first.new }
{
    'items: for item in items {
        note_grouping_item(keys, item, first);
    }
}

/// Notes the items that break a rule by themselves.
fn note_item_rules(parts: &BoundParts, first: &mut FirstFault)
    ensures { (fs : Fields) (ls : List Leaf) (b : binding.BoundParts) → AreParts fs ls b parts.now
        → Notes (binding.item_faults b) first.old first.new }
{
    note_within(&parts.items, first);
    if !parts.is_record_query {
        note_grouping(&parts.keys, &parts.items, first);
    }
}

// ---- names of one object

/// The chain of the node of a WITHIN.
fn within_chain(within: &Option<BoundWithin>) -> &[Step]
    ensures { map step_view result.now ≡ binding.within_chain (option_map within_view within.now) }
{
    match within {
        None => &[],
        Some(within) => chain_end(&within.node),
    }
}

/// The chain of the object in which an item of a record query stands.
fn item_chain(term: &BoundTerm) -> &[Step]
    ensures { (fs : Fields) (ls : List Leaf) (t : binding.BoundTerm) → IsTerm fs ls t term.now
        → map step_view result.now ≡ binding.item_chain t }
{
    match term {
        BoundTerm::Value(value) => deepest_chain(&value.paths),
        BoundTerm::Rows(within) => within_chain(within),
        BoundTerm::Aggregated(_, _, within) => within_chain(within),
    }
}

/// The chain of the object in which an item stands: those of an aggregate query stand in one.
fn object_of(is_record_query: bool, item: &BoundItem) -> &[Step]
    ensures { (fs : Fields) (ls : List Leaf) (b : binding.BoundItem) → IsItem fs ls b item.now
        → map step_view result.now ≡ binding.object_of is_record_query b }
{
    if is_record_query {
        item_chain(&item.term)
    } else {
        &[]
    }
}

/// Whether two items of one object have one name.
fn has_name_of(is_record_query: bool, item: &BoundItem, other: &BoundItem) -> bool
    ensures { (fs : Fields) (ls : List Leaf) (b d : binding.BoundItem) → IsItem fs ls b item.now
        → IsItem fs ls d other.now
        → result ≡ binding.has_name_of is_record_query b d }
{
    let object = object_of(is_record_query, item);
    same_path(object, object_of(is_record_query, other))
        && item.name.as_str() == other.name.as_str()
}

/// Whether an item has the name of a list of its object that leads to another item.
fn has_name_of_list(
    levels: &[Listed],
    is_record_query: bool,
    item: &BoundItem,
    other: &BoundItem,
) -> bool
    ensures { TellsListName (levels_view levels.now) is_record_query item.now other.now result }
{
    is_list_between(
        levels,
        object_of(is_record_query, item),
        object_of(is_record_query, other),
        item.name.as_str(),
    )
}

/// Whether an item has the name of one of some others of its object.
fn is_item_name(is_record_query: bool, item: &BoundItem, others: &[BoundItem]) -> bool
    ensures { TellsItemName is_record_query item.now others.now result }
{
    'others: for other in others {
        if has_name_of(is_record_query, item, other) {
            return true;
        }
    }
    false
}

/// Whether an item has the name of a list of its object that leads to one of some others.
fn is_list_name(
    levels: &[Listed],
    is_record_query: bool,
    item: &BoundItem,
    others: &[BoundItem],
) -> bool
    ensures { TellsListNames (levels_view levels.now) is_record_query item.now others.now result }
{
    'others: for other in others {
        if has_name_of_list(levels, is_record_query, item, other) {
            return true;
        }
    }
    false
}

/// Whether an item has the name of an earlier one of its object, or of a list of its object that leads to any item.
fn is_name_taken(
    levels: &[Listed],
    is_record_query: bool,
    item: &BoundItem,
    before: &[BoundItem],
    all: &[BoundItem],
) -> bool
    ensures { TellsTaken (levels_view levels.now) is_record_query item.now before.now all.now result }
{
    is_item_name(is_record_query, item, before) || is_list_name(levels, is_record_query, item, all)
}

/// Notes an item that has the name of an earlier one of its object, or of a list of its object that leads to any item.
fn note_name(
    levels: &[Listed],
    is_record_query: bool,
    item: &BoundItem,
    before: &[BoundItem],
    all: &[BoundItem],
    first: &mut FirstFault,
)
    ensures { NotesTaken (levels_view levels.now) is_record_query item.now before.now all.now first.old first.new }
{
    if is_name_taken(levels, is_record_query, item, before, all) {
        first.note(item.place, BindProblem::DuplicateName);
    }
}

/// Notes the items whose names their objects have already.
fn note_duplicates(
    levels: &[Listed],
    is_record_query: bool,
    items: &[BoundItem],
    first: &mut FirstFault,
)
    ensures { NotesDuplicates (levels_view levels.now) is_record_query items.now first.old first.new }
{
    'items: for (number, item) in items.iter().enumerate() {
        note_name(
            levels,
            is_record_query,
            item,
            &items[..number],
            items,
            first,
        );
    }
}
