//! At the rows of which leaf aggregates take.

ghost use Rattle.std.specs.Prelude.{◌≡◌, ◌++◌, ◌<◌, [], length, map, true, not, ◌||◌, Some, IfOk};
ghost use Rattle.std.specs.List.{list_all, flat_map};
ghost use Rattle.dr_nested.specs.PathView.{paths_view};
ghost use Rattle.dr_scalar.specs.Leaves.{greater, greatest};
ghost use Rattle.dr_rows_beside.specs.Sources.{is_numbered};

use crate::taking::Taking;
use dr_memory::NoMemory;
use dr_nested::Path;
use dr_plan::Aggregate;
use dr_rows_beside::{Source, push_leaves};
use dr_scalar::last_leaf;
use std::alloc::Global;

/// A leaf, those that are read beside it, what is taken at its rows, and whether they are of use: for that, or for the
/// groups of the keys.
#[derive(Drop)]
pub(crate) struct Fired<'p> {
    pub(crate) source: Source,
    pub(crate) takings: Vec<Taking<'p>>,
    pub(crate) is_needed: bool,
}

ghost use Rattle.dr_columns.specs.Takings.{
  aggregate_leaves,
  are_numbered,
  taken_at,
  same_leaf as meant_same,
  takings_at as meant_takings,
  one_taking,
  taking_view,
  takings_view,
  read_of,
  fired_view,
  fires_at,
  fires_of,
  Take,
};

/// The later of two leaves, where there are such.
fn later(first: Option<u32>, second: Option<u32>) -> Option<u32>
    ensures { result ≡ greater first second }
{
    match (first, second) {
        (Some(first), Some(second)) => Some(first.max(second)),
        (Some(first), None) => Some(first),
        (None, second) => second,
    }
}

/// The last of some leaves.
fn last_of(leaves: &[u32]) -> Option<u32>
    ensures { result ≡ greatest leaves.now }
{
    match leaves {
        [] => None,
        [first, rest @ ..] => later(Some(*first), last_of(rest)),
    }
}

/// Whether two leaves are the same, or none.
fn is_same(one: Option<u32>, other: Option<u32>) -> bool
    ensures { result ≡ meant_same one other }
{
    match (one, other) {
        (None, None) => true,
        (Some(one), Some(other)) => one == other,
        (None, Some(_)) | (Some(_), None) => false,
    }
}

/// The leaf at whose rows an aggregate takes, by the numbers of the keys' leaves; none where it reads no leaf.
fn leaf_of(keys: &[u32], aggregate: &Aggregate) -> Option<u32>
    ensures { result ≡ taken_at keys.now aggregate.now }
{
    match aggregate {
        Aggregate::Rows => last_of(keys),
        Aggregate::Of(_, expression) => later(last_of(keys), last_leaf(expression)),
    }
}

/// Appends an aggregate of a number, if it takes at the rows of a leaf, or of none.
fn push_taking<'p>(
    keys: &[u32],
    leaf: Option<u32>,
    taking: Taking<'p>,
    takings: &mut Vec<Taking<'p>>,
) -> Result<(), NoMemory>
    ensures { IfOk result (λ done. takings_view (takings.new).items ≡ takings_view (takings.old).items
        ++ one_taking keys.now leaf (taking.entry).number ((taking.entry).aggregate).now) }
{
    if is_same(leaf_of(keys, taking.aggregate), leaf) {
        takings.push(taking)?;
    }
    Ok(())
}

/// What aggregates take at the rows of a leaf, or of none.
///
/// Errors: want of memory, or of room for an aggregate's number.
pub(crate) fn takings_at<'p>(
    alloc: Global,
    keys: &[u32],
    aggregates: &'p [Aggregate],
    leaf: Option<u32>,
) -> Result<Vec<Taking<'p>>, NoMemory>
    ensures { IfOk result (λ v. takings_view v.items ≡ meant_takings keys.now leaf 0 aggregates.now) }
{
    let mut takings: Vec<Taking<'p>> = Vec::new(alloc);
    let mut place = 0usize;
    'aggregates: for aggregate in aggregates {
        let Ok(number) = u32::try_from(place) else {
            return Err(NoMemory);
        };
        push_taking(keys, leaf, Taking { number, aggregate }, &mut takings)?;
        place += 1;
    }
    Ok(takings)
}

/// Appends the leaves that an aggregate reads.
fn push_aggregate(aggregate: &Aggregate, out: &mut Vec<u32>) -> Result<(), NoMemory>
    ensures { IfOk result (λ done. (out.new).items ≡ (out.old).items ++ aggregate_leaves aggregate.now) }
{
    match aggregate {
        Aggregate::Rows => Ok(()),
        Aggregate::Of(_, expression) => push_leaves(expression, out),
    }
}

/// Appends the leaves that are read for what is taken.
fn push_read(takings: &[Taking<'_>], out: &mut Vec<u32>) -> Result<(), NoMemory>
    ensures { IfOk result (λ done. (out.new).items ≡ (out.old).items
        ++ flat_map (λ (t : Take). aggregate_leaves t.aggregate) (takings_view takings.now)) }
{
    'takings: for taking in takings {
        push_aggregate(taking.aggregate, out)?;
    }
    Ok(())
}

impl<'p> Fired<'p> {
    /// A leaf.
    ///
    /// Errors: want of memory, or of room for an aggregate's number.
    fn of(
        alloc: Global,
        leaves: &[Path],
        keys: &[u32],
        aggregates: &'p [Aggregate],
        leaf: u32,
    ) -> Result<Fired<'p>, NoMemory>
        requires keys { list_all (is_numbered (length leaves.now)) keys.now ≡ true }
        requires aggregates { are_numbered (length leaves.now) aggregates.now ≡ true }
        ensures { IfOk result (λ f. fired_view f ≡ fires_at (paths_view leaves.now) keys.now aggregates.now leaf) }
    {
        let takings = takings_at(alloc, keys, aggregates, Some(leaf))?;
        let mut read: Vec<u32> = Vec::new(alloc);
        read.extend_from_slice(keys)?;
        push_read(&takings, &mut read)?;
        let source = Source::new(alloc, leaves, leaf, &read)?;
        let is_needed = !takings.is_empty() || is_same(last_of(keys), Some(leaf));
        Ok(Fired {
            source,
            takings,
            is_needed,
        })
    }
}

/// Each leaf.
///
/// Errors: want of memory, or of room for the number of a leaf or an aggregate.
pub(crate) fn fired_of<'p>(
    alloc: Global,
    leaves: &[Path],
    keys: &[u32],
    aggregates: &'p [Aggregate],
) -> Result<Vec<Fired<'p>>, NoMemory>
    requires keys { list_all (is_numbered (length leaves.now)) keys.now ≡ true }
    requires aggregates { are_numbered (length leaves.now) aggregates.now ≡ true }
    ensures { IfOk result (λ v. map fired_view v.items
        ≡ fires_of (paths_view leaves.now) keys.now aggregates.now (length leaves.now)) }
{
    let mut fired: Vec<Fired<'p>> = Vec::new(alloc);
    'leaves: for place in 0..leaves.len() {
        let Ok(leaf) = u32::try_from(place) else {
            return Err(NoMemory);
        };
        fired.push(Fired::of(alloc, leaves, keys, aggregates, leaf)?)?;
    }
    Ok(fired)
}
