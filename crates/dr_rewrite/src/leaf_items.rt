//! Items of the query of leaf servers.

ghost use Rattle.std.specs.Prelude.{◌≡◌, ◌++◌, map, string_bytes, IfOk, OnOk};
ghost use Rattle.dr_rewrite.specs.Items as written;

use crate::columns::{push_aggregate_name, push_key_name};
use crate::paths::{Names, push_leaf};
use crate::terms::push_aggregate;
use dr_memory::NoMemory;
use dr_plan::Aggregate;
use std::alloc::Global;

/// The path of a key.
fn key_path(alloc: Global, key: u32, names: &Names<'_>) -> Result<String, NoMemory>
    ensures { IfOk result (λ s. string_bytes s ≡ written.key_text names.now key) }
{
    let mut text = String::new(alloc);
    push_leaf(key, names, &mut text)?;
    Ok(text)
}

/// The paths of keys.
pub(crate) fn key_paths(
    alloc: Global,
    keys: &[u32],
    names: &Names<'_>,
) -> Result<Vec<String>, NoMemory>
    ensures { IfOk result (λ v. map string_bytes v.items ≡ map (written.key_text names.now) keys.now) }
{
    let mut texts = Vec::with_capacity(alloc, keys.len())?;
    'keys: for key in keys {
        texts.push(key_path(alloc, *key, names)?)?;
    }
    Ok(texts)
}

/// A key as an item of the leaf query.
fn leaf_key(alloc: Global, place: usize, key: u32, names: &Names<'_>) -> Result<String, NoMemory>
    ensures { IfOk result (λ s. string_bytes s ≡ written.leaf_key names.now place key) }
{
    let mut text = String::new(alloc);
    push_leaf(key, names, &mut text)?;
    text.push_str(" AS ")?;
    push_key_name(place, &mut text)?;
    Ok(text)
}

/// An aggregate as an item of the leaf query.
fn leaf_aggregate(
    alloc: Global,
    place: usize,
    aggregate: &Aggregate,
    names: &Names<'_>,
) -> Result<String, NoMemory>
    ensures { IfOk result (λ s. string_bytes s ≡ written.leaf_aggregate names.now place aggregate.now) }
{
    let mut text = String::new(alloc);
    push_aggregate(aggregate, names, &mut text)?;
    text.push_str(" AS ")?;
    push_aggregate_name(place, &mut text)?;
    Ok(text)
}

/// The items of the leaf query: each key, then each aggregate.
pub(crate) fn leaf_items(
    alloc: Global,
    keys: &[u32],
    aggregates: &[Aggregate],
    names: &Names<'_>,
) -> Result<Vec<String>, NoMemory>
    ensures { IfOk result (λ v. map string_bytes v.items
        ≡ written.indexed (written.leaf_key names.now) 0 keys.now
        ++ written.indexed (written.leaf_aggregate names.now) 0 aggregates.now) }
{
    let mut texts = Vec::new(alloc);
    'keys: for (place, key) in keys.iter().enumerate() {
        texts.push(leaf_key(alloc, place, *key, names)?)?;
    }
    push_leaf_aggregates(alloc, aggregates, names, &mut texts)?;
    Ok(texts)
}

/// Appends the aggregates as items of the leaf query.
fn push_leaf_aggregates(
    alloc: Global,
    aggregates: &[Aggregate],
    names: &Names<'_>,
    texts: &mut Vec<String>,
) -> Result<(), NoMemory>
    ensures { OnOk result (map string_bytes (texts.new).items
        ≡ map string_bytes (texts.old).items ++ written.indexed (written.leaf_aggregate names.now) 0 aggregates.now) }
{
    'aggregates: for (place, aggregate) in aggregates.iter().enumerate() {
        texts.push(leaf_aggregate(alloc, place, aggregate, names)?)?;
    }
    Ok(())
}
