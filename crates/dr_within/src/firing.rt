//! Which rows fire at which leaf.

ghost use Rattle.std.specs.Prelude.{◌≡◌, ◌∷◌, ◌++◌, [], ℕ, List, IfOk, OnOk};
ghost use Rattle.dr_scalar.specs.Leaves.{greater, greatest};
ghost use Rattle.dr_within.specs.Takings.{
  Take,
  fires_at as meant_leaf,
  taking_of as meant_taking,
  taking_view,
  takings_of,
  takings_view,
};
ghost use Rattle.dr_within.specs.Firings.{firing_in, leaving_in, Fires};

use crate::taking::Taking;
use dr_memory::NoMemory;
use dr_plan::Aggregate;
use dr_scalar::last_leaf;
use std::alloc::Global;

/// The rows that fire at each leaf, by the leaf's number, and those that fire at none, where a record is left. A row
/// depends on leaves that are read together; it fires at the one of them that is read last.
#[derive(Drop)]
pub(crate) struct Firing<'p> {
    pub(crate) at_leaf: Vec<Vec<Taking<'p>>>,
    pub(crate) at_end: Vec<Taking<'p>>,
}

/// The later of two leaves, where there are such.
fn later(first: Option<u32>, second: Option<u32>) -> Option<u32>
    ensures { result ≡ greater first second }
{
    match (first, second) {
        (Some(first), Some(second)) => Some(first.max(second)),
        (Some(first), None) => Some(first),
        (None, second) => second,
    }
}

/// The last of some leaves.
fn last_of(leaves: &[u32]) -> Option<u32>
    ensures { result ≡ greatest leaves.now }
{
    let mut last = None;
    'leaves: for leaf in leaves {
        last = later(last, Some(*leaf));
    }
    last
}

/// The leaf at which a row fires, by the numbers of the keys' leaves.
fn leaf_of(keys: &[u32], taking: Taking<'_>) -> Option<u32>
    ensures { result ≡ meant_leaf keys.now (taking_view taking.entry) }
{
    match taking {
        Taking::Nothing | Taking::Row(_) => last_of(keys),
        Taking::Value(_, expression) => later(last_of(keys), last_leaf(expression)),
    }
}

/// What is taken for an aggregate.
fn taking_of<'p>(number: u32, aggregate: &'p Aggregate) -> Taking<'p>
    ensures { taking_view result ≡ meant_taking number aggregate.now }
{
    match aggregate {
        Aggregate::Rows => Taking::Row(number),
        Aggregate::Of(_, expression) => Taking::Value(number, expression),
    }
}

impl<'p> Firing<'p> {
    /// No rows, for so many leaves.
    fn none(alloc: Global, leaves: usize) -> Result<Firing<'p>, NoMemory>
        ensures { IfOk result (λ f. (keys : List ℕ) → Fires leaves keys [] f) }
    {
        let mut at_leaf = Vec::with_capacity(alloc, leaves)?;
        'leaves: for _ in 0..leaves {
            at_leaf.push(Vec::new(alloc))?;
        }
        Ok(Firing {
            at_leaf,
            at_end: Vec::new(alloc),
        })
    }

    /// One more, behind the others.
    fn add(&mut self, keys: &[u32], taking: Taking<'p>) -> Result<(), NoMemory>
        ensures { OnOk result ((n : ℕ) (ts : List Take) → Fires n keys.now ts self.old → Fires n keys.now
            (ts ++ taking_view taking.entry ∷ []) self.new) }
    {
        match leaf_of(keys, taking) {
            None => self.at_end.push(taking)?,
            Some(leaf) => {
                let at = leaf as usize;
                if at < self.at_leaf.len() {
                    self.at_leaf[at].push(taking)?;
                }
            }
        }
        Ok(())
    }

    /// The rows of a plan of groups with so many leaves: the key tuples, and then what each aggregate takes.
    ///
    /// Errors: want of memory, or of room for an aggregate's number.
    pub(crate) fn new(
        alloc: Global,
        leaves: usize,
        keys: &[u32],
        aggregates: &'p [Aggregate],
    ) -> Result<Firing<'p>, NoMemory>
        ensures { IfOk result (Fires leaves keys.now (takings_of aggregates.now)) }
    {
        let mut firing = Firing::none(alloc, leaves)?;
        firing.add(keys, Taking::Nothing)?;
        let mut place = 0usize;
        'aggregates: for aggregate in aggregates {
            let Ok(number) = u32::try_from(place) else {
                return Err(NoMemory);
            };
            firing.add(keys, taking_of(number, aggregate))?;
            place += 1;
        }
        Ok(firing)
    }

    /// The rows that fire at a leaf.
    #[inline(always)]
    pub(crate) fn at(&self, leaf: u32) -> &[Taking<'p>]
        ensures { takings_view result.now ≡ firing_in self.now leaf }
    {
        let at = leaf as usize;
        if at < self.at_leaf.len() {
            self.at_leaf[at].as_slice()
        } else {
            &[]
        }
    }

    /// The rows that fire where an instance of a repeated field, or the record (0), is left.
    #[inline(always)]
    pub(crate) fn at_leave(&self, number: u32) -> &[Taking<'p>]
        ensures { takings_view result.now ≡ leaving_in self.now number }
    {
        if number == 0 {
            self.at_end.as_slice()
        } else {
            &[]
        }
    }
}
