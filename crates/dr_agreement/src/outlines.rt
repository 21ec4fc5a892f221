//! Columns of neighbours: leaves whose paths have a front in common agree on it.

ghost use Rattle.std.specs.Prelude.{◌≡◌, ◌≤◌, ◌<◌, ◌++◌, ◌∷◌, [], length, map, take, true, false, nat_lt, if◌then◌else◌, IfOk};
ghost use Rattle.std.specs.List.{list_all};
ghost use Rattle.dr_beside.specs.Outlines.{outline};
ghost use Rattle.dr_nested.specs.PathView.{paths_view};
ghost use Rattle.dr_levels.specs.Views.{triplets_view};
ghost use Rattle.dr_beside.specs.Neighbours as meant;
ghost use Rattle.dr_agreement.specs.Outlines.{neighbours_view, outlined, IsNearest, AgreeEach, SomeDisagree, is_within};

use crate::fronts::{Front, front_of};
use dr_levels::{Levels, Triplets};
use dr_memory::NoMemory;
use dr_nested::Path;
use std::alloc::Global;

/// A leaf, an earlier one with which it has as many fields in common as with any, and their front.
#[derive(Clone, Copy)]
pub(crate) struct Neighbours {
    pub(crate) leaf: usize,
    pub(crate) earlier: usize,
    pub(crate) front: Front,
}

/// The second, if its front is longer.
fn longer(one: Neighbours, other: Neighbours) -> Neighbours
    ensures { result ≡ (if nat_lt (one.front).steps (other.front).steps then other else one) }
{
    if other.front.steps > one.front.steps {
        other
    } else {
        one
    }
}

/// A leaf with the nearest of the earlier ones.
fn nearest(leaves: &[Path], leaf: usize) -> Neighbours
    requires later { 0 < leaf }
    requires within { leaf < length leaves.now }
    ensures nearest { IsNearest (paths_view leaves.now) leaf result }
    ensures leaf { result.leaf ≡ leaf }
{
    let mut best = Neighbours {
        leaf,
        earlier: 0,
        front: front_of(leaves, leaf, 0),
    };
    'earlier: for earlier in 1..leaf {
        best = longer(
            best,
            Neighbours {
                leaf,
                earlier,
                front: front_of(leaves, leaf, earlier),
            },
        );
    }
    best
}

/// Appends neighbours whose front may be absent.
///
/// Errors: want of memory alone.
fn push_found(pair: Neighbours, found: &mut Vec<Neighbours>) -> Result<(), NoMemory>
    ensures { IfOk result (λ done. (found.new).items
        ≡ (if nat_lt 0 (pair.front).defined then (found.old).items ++ pair ∷ [] else (found.old).items)) }
{
    if pair.front.defined > 0 {
        found.push(pair)?;
    }
    Ok(())
}

/// Leaves in reading order, each with its neighbour among the earlier ones, where they have a field in common that may
/// be absent.
///
/// Errors: want of memory alone.
pub(crate) fn neighbours_of(alloc: Global, leaves: &[Path]) -> Result<Vec<Neighbours>, NoMemory>
    ensures { IfOk result (λ found. meant.AreAllNeighbours (paths_view leaves.now) (map neighbours_view found.items)) }
{
    let mut found = Vec::new(alloc);
    'leaves: for leaf in 1..leaves.len() {
        push_found(nearest(leaves, leaf), &mut found)?;
    }
    Ok(found)
}

/// Puts the outline of a column up to a front into the place of another: the levels of its triplets that begin an
/// instance of the front, or of what is on the path to it, as far as the front is there.
///
/// Errors: want of memory alone.
fn put_outline(levels: &[Levels], front: Front, out: &mut Vec<u16>) -> Result<(), NoMemory>
    ensures { IfOk result (λ done. (out.new).items ≡ outlined front.repeated front.defined levels.now) }
{
    out.clear();
    out.resize(levels.len(), 0u16)?;
    let count = outline_into(levels, front, out.as_mut_slice());
    out.truncate(count);
    Ok(())
}

/// Puts it into the first places of a room, and answers how many they are.
fn outline_into(levels: &[Levels], front: Front, room: &mut [u16]) -> usize
    requires { length room.old ≡ length levels.now }
    ensures within { result ≤ length levels.now }
    ensures outline { take result room.new ≡ outlined front.repeated front.defined levels.now }
{
    let mut count = 0;
    'levels: for at in 0..levels.len() {
        let repetition = levels[at].repetition;
        let definition = levels[at].definition.min(front.defined);
        room[count] = u16::from(repetition) * 256 + u16::from(definition);
        count += usize::from(repetition <= front.repeated);
    }
    count
}

/// Whether two outlines are the same.
fn same_outline(one: &[u16], other: &[u16]) -> bool
    ensures same { result ≡ true → one.now ≡ other.now }
    ensures differ { result ≡ false → one.now ≡ other.now → ⊥ }
{
    if one.len() != other.len() {
        return false;
    }
    let mut differ = false;
    'levels: for at in 0..one.len() {
        differ = differ | (one[at] != other[at]);
    }
    !differ
}

/// Room for two outlines.
#[derive(Drop)]
pub(crate) struct Outlines {
    one: Vec<u16>,
    other: Vec<u16>,
}

impl Outlines {
    pub(crate) fn new(alloc: Global) -> Outlines {
        Outlines {
            one: Vec::new(alloc),
            other: Vec::new(alloc),
        }
    }

    /// Whether two columns agree up to a front.
    ///
    /// Errors: want of memory alone.
    fn agree_on(
        &mut self,
        one: Triplets<'_>,
        other: Triplets<'_>,
        front: Front,
    ) -> Result<bool, NoMemory>
        ensures same { result ≡ Ok true → outline front.repeated front.defined (triplets_view one.entry)
            ≡ outline front.repeated front.defined (triplets_view other.entry) }
        ensures differ { result ≡ Ok false → outline front.repeated front.defined (triplets_view one.entry)
            ≡ outline front.repeated front.defined (triplets_view other.entry) → ⊥ }
    {
        put_outline(one.levels(), front, &mut self.one)?;
        put_outline(other.levels(), front, &mut self.other)?;
        Ok(same_outline(&self.one, &self.other))
    }

    /// Whether all neighbours agree.
    ///
    /// Errors: want of memory alone.
    pub(crate) fn agree(
        &mut self,
        neighbours: &[Neighbours],
        columns: &[Triplets<'_>],
    ) -> Result<bool, NoMemory>
        requires { list_all (is_within (length columns.now)) neighbours.now ≡ true }
        ensures same { result ≡ Ok true
            → AgreeEach (map triplets_view columns.now) (map neighbours_view neighbours.now) }
        ensures differ { result ≡ Ok false
            → SomeDisagree (map triplets_view columns.now) (map neighbours_view neighbours.now) }
    {
        'neighbours: for pair in neighbours {
            if !self.agree_on(columns[pair.leaf], columns[pair.earlier], pair.front)? {
                return Ok(false);
            }
        }
        Ok(true)
    }
}
