//! The walk of records over their columns, as a stream of moves.

ghost use Rattle.std.specs.Prelude.{◌≡◌, ◌≤◌, ◌<◌, ◌+◌, ◌*◌, Ok, Err, ◌≢◌, ◌++◌, [], get_or, option_map, replicate, List, ℕ, length, map, true, Some, None, IfOk, IsErrOf};
ghost use Rattle.std.specs.List.{list_all};
ghost use Rattle.dr_meaning.specs.Path.{is_leaf_path, Leaf};
ghost use Rattle.dr_meaning.specs.Walk as meant;
ghost use Rattle.dr_meaning.specs.Column as meant_column;
ghost use Rattle.dr_nested.specs.Views.{fields_view, kind_view};
ghost use Rattle.dr_walk.specs.Standing.{fits as meant_fits};
ghost use Rattle.dr_levels.specs.Views.{levels_pair, triplet_levels, triplet_view, lent_value};
ghost use Rattle.dr_walk.specs.Walking.{first_wanted};
ghost use Rattle.dr_walk.specs.Valued.{kept_value, meant_value};
ghost use Rattle.dr_moves.specs.Leading.{Left, columns_of};
ghost use Rattle.dr_moves.specs.Selection.{all_differ};
ghost use Rattle.dr_walk.specs.declared.fault.AssembleFault.{AssembleFault};
ghost use Rattle.dr_nested.specs.PathView.{lent_path};

use crate::fault::AssembleFault;
use crate::level_move::LevelMove;
use crate::level_walk::LevelWalk;
use crate::values::fits;
use dr_levels::{Levels, Move, Triplet, ValueRef};
use dr_nested::{Kind, NoMemory, Schema, Step};
use std::alloc::Global;

/// A walk over the columns of the selected leaves of records: it takes their triplets one at a time, each where it is
/// wanted, and gives the moves of the records, in reading order. A text is lent by the triplet that it came with.
#[derive(Drop)]
pub struct Walk<'a> {
    pub(crate) levels: LevelWalk,
    /// The value that comes next of each leaf.
    pub(crate) values: Vec<Option<ValueRef<'a>>>,
}

/// No value of so many leaves.
fn no_values<'a>(alloc: Global, leaves: usize) -> Result<Vec<Option<ValueRef<'a>>>, NoMemory>
    ensures { IfOk result (λ v. v.items ≡ replicate leaves None) }
{
    let mut values = Vec::new(alloc);
    values.resize(leaves, None)?;
    Ok(values)
}

/// The levels of a triplet.
fn levels_of(triplet: Option<Triplet<'_>>) -> Option<Levels>
    ensures levels { option_map levels_pair result ≡ option_map triplet_levels (option_map triplet_view triplet.entry) }
    ensures none { triplet.entry ≡ None → result ≡ None }
{
    match triplet {
        Some(triplet) => Some(Levels {
            repetition: triplet.repetition,
            definition: triplet.definition,
        }),
        None => None,
    }
}

/// The value of a triplet.
fn value_of<'a>(triplet: Option<Triplet<'a>>) -> Option<ValueRef<'a>>
    ensures { option_map lent_value result ≡ meant_value (option_map triplet_view triplet.entry) }
{
    match triplet {
        Some(triplet) => triplet.value,
        None => None,
    }
}

/// The value that comes next of a leaf.
fn value_at<'a>(values: &[Option<ValueRef<'a>>], leaf: u32) -> Option<ValueRef<'a>>
    ensures { result ≡ get_or values.now leaf None }
{
    match values.get(leaf as usize) {
        Some(value) => *value,
        None => None,
    }
}

/// A value comes next of a leaf, or none does.
fn set_value<'a>(values: &mut Vec<Option<ValueRef<'a>>>, leaf: u32, value: Option<ValueRef<'a>>)
    ensures here { leaf < length (values.old).items → get_or (values.new).items leaf None ≡ value.entry }
    ensures others { (i : ℕ) → i ≢ leaf → get_or (values.new).items i None ≡ get_or (values.old).items i None }
    ensures as_many { length (values.new).items ≡ length (values.old).items }
{
    if let Some(held) = values.get_mut(leaf as usize) {
        *held = value;
    }
}

/// Keeps the value of what comes of the leaf that is wanted, if one is.
fn keep<'a>(values: &mut Vec<Option<ValueRef<'a>>>, wanted: Option<u32>, more: Option<Triplet<'a>>)
    ensures here { (leaf : ℕ) → wanted ≡ Some leaf → leaf < length (values.old).items
        → kept_value (values.new).items leaf ≡ meant_value (option_map triplet_view more.entry) }
    ensures others { (i : ℕ) → (wanted ≡ Some i → ⊥) → kept_value (values.new).items i
        ≡ kept_value (values.old).items i }
    ensures as_many { length (values.new).items ≡ length (values.old).items }
{
    if let Some(leaf) = wanted {
        set_value(values, leaf, value_of(more));
    }
}

impl<'a> Walk<'a> {
    ghost use Rattle.dr_walk.specs.Walking.{NoneHas, HasLevels, OverRecords, OverLeaves, WalkBegins, IsWholeWalk, Nest, wanted_then};
    ghost use Rattle.dr_walk.specs.Valued.{OverColumns, IsAt, moves_of, left_behind, Wants, IsKeptFor, IsGiven, IsValued, HasForm};

    /// A walk over columns of so many records at some leaves, each given by its path; the columns go by the places of
    /// the leaves.
    ///
    /// Errors: want of memory alone.
    pub fn start(
        alloc: Global,
        schema: &Schema,
        fields: &[&[Step]],
        rows: u64,
    ) -> Result<Walk<'a>, NoMemory>
        requires leaves { list_all (is_leaf_path (fields_view (schema.now).fields.items)) (map lent_path fields.now)
            ≡ true }
        requires differ { all_differ (map lent_path fields.now) ≡ true }
        ensures at { IfOk result (λ w. (C : List (List meant_column.Triplet)) → length C ≡ length fields.now
            → IsAt (fields_view (schema.now).fields.items) (map lent_path fields.now) rows C [] (columns_of C) w) }
        ensures wants { IfOk result (λ w. w.levels.wanted ≡ first_wanted (length fields.now)) }
    {
        let levels = LevelWalk::start(alloc, schema, fields, rows)?;
        let values = no_values(alloc, fields.len())?;
        Ok(Walk { levels, values })
    }

    /// The leaf whose next triplet is wanted, by its place in the selection.
    pub fn wants(&self) -> Option<u32>
        ensures { result ≡ self.now.levels.wanted }
    {
        self.levels.wants()
    }

    /// How many moves were given.
    pub fn given(&self) -> u64
        ensures { result ≡ self.now.levels.given }
    {
        self.levels.given()
    }

    /// How many triplets were taken.
    pub fn taken(&self) -> u64
        ensures { result ≡ self.now.levels.taken }
    {
        self.levels.taken()
    }

    /// Takes the next triplet of the leaf that is wanted, none at its column's end, and gives the next move, none where
    /// more is wanted first, and none once all was given.
    ///
    /// Errors: no records have columns that go on so; want of memory. A walk repeats its refusal from then on.
    pub fn next(&mut self, more: Option<Triplet<'a>>) -> Result<Option<Move<'a>>, AssembleFault>
        requires more { self.old.levels.wanted ≡ None → more ≡ None }
        // Where it stood over columns, it goes on over them.
        ensures on { OverColumns self.old more.entry (λ fs F rows C ms left.
            IfOk result (λ m. IsAt fs F rows C (ms ++ moves_of m) (left_behind m left) self.new)) }
        // Where records have the columns, their walk's moves are given, in order.
        ensures front { OverColumns self.old more.entry (λ fs F rows C ms left. OverRecords fs F rows C (λ R.
            IfOk result (λ m. WalkBegins fs F R (ms ++ moves_of m)))) }
        // No records have columns that are refused.
        ensures bad { OverColumns self.old more.entry (λ fs F rows C ms left.
            list_all (is_leaf_path fs) F ≡ true → IsErrOf result AssembleFault.BadData → NoneHas fs F C rows) }
        // Where nothing is wanted, no move comes exactly where records have the columns and their whole walk was given.
        ensures whole { OverColumns self.old more.entry (λ fs F rows C ms left.
            list_all (is_leaf_path fs) F ≡ true → all_differ F ≡ true → result ≡ Ok None → self.new.levels.wanted ≡ None
            → IsWholeWalk fs F rows C ms) }
        ensures last { OverColumns self.old more.entry (λ fs F rows C ms left. OverRecords fs F rows C (λ R.
            meant.walk fs F R ≡ ms → IfOk result (λ m. m ≡ None))) }
        // Where a leaf is wanted after it, none is given only where this call took what was wanted.
        ensures asked { (i : ℕ) → result ≡ Ok None → self.new.levels.wanted ≡ Some i
            → (j : ℕ) × (self.old.levels.wanted ≡ Some j) }
        // A leaf is wanted before the first move, each in turn, and where the last move gave its triplet.
        ensures wants { OverColumns self.old more.entry (λ fs F rows C ms left. IfOk result (λ m.
            Wants m (wanted_then self.old.levels) self.new.levels.wanted)) }
        // No leaf is wanted after its end.
        ensures ended { OverColumns self.old more.entry (λ fs F rows C ms left. (i : ℕ)
            → self.old.levels.wanted ≡ Some i → more.entry ≡ None → self.new.levels.wanted ≡ Some i → ⊥) }
        // Whatever the columns, each move nests on what is open.
        ensures nests { OverColumns self.old more.entry (λ fs F rows C ms left. OverLeaves fs F (λ L.
            all_differ F ≡ true → IfOk result (λ m. Nest fs L (ms ++ moves_of m)))) }
        // At most two moves are given for each record, and 65 for each triplet that was taken.
        ensures bound { OverColumns self.old more.entry (λ fs F rows C ms left.
            list_all (is_leaf_path fs) F ≡ true → IfOk result (λ m. self.new.levels.given
            ≤ 2 * rows + 65 * self.new.levels.taken)) }
        // It repeats its refusal, and a refusal is one from then on.
        ensures again { (fault : AssembleFault) → self.old.levels.failed ≡ Some fault → result ≡ Err fault }
        ensures refused { (fault : AssembleFault) → result ≡ Err fault → self.new.levels.failed ≡ Some fault }
    {
        keep(&mut self.values, self.levels.wants(), more);
        match self.levels.next(levels_of(more)) {
            Ok(step) => self.valued(step),
            Err(fault) => Err(fault),
        }
    }

    /// A move of the walk by levels, with the value that it asks for.
    ///
    /// Errors: `BadData` where another value came, or none; the walk is refused then.
    fn valued(&mut self, step: Option<LevelMove>) -> Result<Option<Move<'a>>, AssembleFault>
        ensures valued { (left : Left) → HasLevels left step → IsKeptFor left self.old.values.items step
            → IsValued left step result }
        ensures form { IfOk result (HasForm step) }
        ensures same { IfOk result (λ m. self.new.levels ≡ self.old.levels) }
        ensures values { self.new.values ≡ self.old.values }
        ensures wanted { self.new.levels.wanted ≡ self.old.levels.wanted }
        ensures refused { (fault : AssembleFault) → result ≡ Err fault → self.new.levels.failed ≡ Some fault }
    {
        match step {
            Some(step) => self.give(step),
            None => Ok(None),
        }
    }

    /// A move of the walk by levels, with the value that it asks for, if one is given.
    fn give(&mut self, step: LevelMove) -> Result<Option<Move<'a>>, AssembleFault>
        ensures valued { (left : Left) → HasLevels left (Some step) → IsKeptFor left self.old.values.items (Some step)
            → IsValued left (Some step) result }
        ensures form { IfOk result (HasForm (Some step)) }
        ensures same { IfOk result (λ m. self.new.levels ≡ self.old.levels) }
        ensures values { self.new.values ≡ self.old.values }
        ensures wanted { self.new.levels.wanted ≡ self.old.levels.wanted }
        ensures refused { (fault : AssembleFault) → result ≡ Err fault → self.new.levels.failed ≡ Some fault }
    {
        match step {
            LevelMove::Enter(number) => Ok(Some(Move::Enter(number))),
            LevelMove::Leave(number) => Ok(Some(Move::Leave(number))),
            LevelMove::Leaf(leaf, levels, kind) => self.give_leaf(leaf, levels, kind),
        }
    }

    /// Gives a leaf's triplet, where its value is of this kind, or where none is given, there is none.
    fn give_leaf(
        &mut self,
        leaf: u32,
        levels: Levels,
        kind: Option<Kind>,
    ) -> Result<Option<Move<'a>>, AssembleFault>
        ensures gives { IsGiven leaf levels (meant_fits (option_map kind_view kind) (kept_value self.old.values.items
            leaf)) (get_or self.old.values.items leaf None) result }
        ensures same { IfOk result (λ m. self.new.levels ≡ self.old.levels) }
        ensures values { self.new.values ≡ self.old.values }
        ensures wanted { self.new.levels.wanted ≡ self.old.levels.wanted }
        ensures refused { (fault : AssembleFault) → result ≡ Err fault → self.new.levels.failed ≡ Some fault }
    {
        let value = value_at(&self.values, leaf);
        if !fits(kind, value) {
            self.levels.refuse();
            return Err(AssembleFault::BadData);
        }
        let triplet = Triplet {
            repetition: levels.repetition,
            definition: levels.definition,
            value,
        };
        Ok(Some(Move::Leaf(leaf, triplet)))
    }
}
