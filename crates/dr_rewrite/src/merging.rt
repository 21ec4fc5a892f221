//! Items of the queries that merge results.

ghost use Rattle.std.specs.Prelude.{◌≡◌, ◌++◌, map, string_bytes, IfOk, OnOk};
ghost use Rattle.std.specs.List.{slice_get};
ghost use Rattle.dr_partials.specs.RewritingText.{in_parentheses};
ghost use Rattle.dr_rewrite.specs.Items as written;

use crate::columns::{push_aggregate_name, push_key_name};
use crate::names::push_quoted_name;
use crate::terms::merging_word_of;
use dr_memory::NoMemory;
use dr_plan::{Aggregate, GroupItem, GroupTerm};
use std::alloc::{AllocError, Global};

/// Appends the aggregate that merges what another has gathered, by the other's word and number.
fn push_merging(word: &str, number: usize, out: &mut String) -> Result<(), AllocError>
    ensures { OnOk result (string_bytes out.new
        ≡ string_bytes out.old ++ (word.now ++ in_parentheses (written.aggregate_name number))) }
{
    out.push_str(word)?;
    out.push_str("(")?;
    push_aggregate_name(number, out)?;
    out.push_str(")")
}

/// An aggregate as an item of the inner query.
fn inner_aggregate(alloc: Global, place: usize, aggregate: &Aggregate) -> Result<String, NoMemory>
    ensures { IfOk result (λ s. string_bytes s ≡ written.inner_aggregate place aggregate.now) }
{
    let mut text = String::new(alloc);
    push_merging(merging_word_of(aggregate), place, &mut text)?;
    text.push_str(" AS ")?;
    push_aggregate_name(place, &mut text)?;
    Ok(text)
}

/// Appends the aggregates as items of the inner query.
pub(crate) fn push_inner_aggregates(
    alloc: Global,
    aggregates: &[Aggregate],
    texts: &mut Vec<String>,
) -> Result<(), NoMemory>
    ensures { OnOk result (map string_bytes (texts.new).items
        ≡ map string_bytes (texts.old).items ++ written.indexed written.inner_aggregate 0 aggregates.now) }
{
    'aggregates: for (place, aggregate) in aggregates.iter().enumerate() {
        texts.push(inner_aggregate(alloc, place, aggregate)?)?;
    }
    Ok(())
}

/// The word of the aggregate that merges that of a number.
fn merging_word_at(aggregates: &[Aggregate], number: u32) -> &'static str
    ensures { result.now ≡ written.merging_word_at (slice_get aggregates.now number) }
{
    match aggregates.get(number as usize) {
        Some(aggregate) => merging_word_of(aggregate),
        None => "SUM",
    }
}

/// Appends what an item of the root query gives.
fn push_root_term(
    term: GroupTerm,
    aggregates: &[Aggregate],
    out: &mut String,
) -> Result<(), AllocError>
    ensures { OnOk result (string_bytes out.new ≡ string_bytes out.old ++ written.root_term aggregates.now term) }
{
    match term {
        GroupTerm::Key(key) => push_key_name(key as usize, out),
        GroupTerm::Aggregate(number) => {
            let word = merging_word_at(aggregates, number);
            push_merging(word, number as usize, out)
        }
    }
}

/// An item of the root query, with its name.
fn root_item(alloc: Global, item: &GroupItem, aggregates: &[Aggregate]) -> Result<String, NoMemory>
    ensures { IfOk result (λ s. string_bytes s ≡ written.root_item aggregates.now item.now) }
{
    let mut text = String::new(alloc);
    push_root_term(item.term, aggregates, &mut text)?;
    text.push_str(" AS ")?;
    push_quoted_name(item.name.as_str(), &mut text)?;
    Ok(text)
}

/// The items of the root query.
pub(crate) fn root_items(
    alloc: Global,
    items: &[GroupItem],
    aggregates: &[Aggregate],
) -> Result<Vec<String>, NoMemory>
    ensures { IfOk result (λ v. map string_bytes v.items ≡ map (written.root_item aggregates.now) items.now) }
{
    let mut texts = Vec::with_capacity(alloc, items.len())?;
    'items: for item in items {
        texts.push(root_item(alloc, item, aggregates)?)?;
    }
    Ok(texts)
}
