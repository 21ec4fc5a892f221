//! The walk of records over their columns by levels alone, as a stream of moves.

ghost use Rattle.std.specs.Prelude.{◌≡◌, ◌≤◌, ◌<◌, ◌+◌, ◌-◌, ◌*◌, ◌^◌, min, Ok, Err, ◌≢◌, ◌++◌, [], option_map, List, ℕ, length, map, true, Some, None, is_some, IfOk, IsErrOf};
ghost use Rattle.std.specs.List.{list_all};
ghost use Rattle.dr_meaning.specs.Path.{is_leaf_path, Leaf};
ghost use Rattle.dr_meaning.specs.Walk as meant;
ghost use Rattle.dr_meaning.specs.Column as meant_column;
ghost use Rattle.dr_nested.specs.Views.{fields_view};
ghost use Rattle.dr_walk.specs.declared.level_move.LevelMove.{LevelMove as MeantMove};
ghost use Rattle.dr_walk.specs.Seen.{levels_at};
ghost use Rattle.dr_walk.specs.Walking.{count_one, first_wanted};
ghost use Rattle.dr_levels.specs.Views.{levels_pair};
ghost use Rattle.dr_moves.specs.Leading.{columns_of};
ghost use Rattle.dr_moves.specs.Selection.{all_differ};
ghost use Rattle.dr_walk.specs.declared.fault.AssembleFault.{AssembleFault};
ghost use Rattle.dr_nested.specs.PathView.{lent_path};

use crate::course::Course;
use crate::fault::AssembleFault;
use crate::laying::table_of;
use crate::level_move::LevelMove;
use crate::turn::Turn;
use dr_levels::Levels;
use dr_nested::{Kind, NoMemory, Schema, Step};
use std::alloc::Global;

/// A walk over the columns of the selected leaves of records, by levels alone: it takes the levels of their triplets
/// one at a time, each where they are wanted, and gives the moves of the records, in reading order. A leaf's move comes
/// before the leaf's next triplet is wanted, so the value can be taken then.
#[derive(Drop)]
pub struct LevelWalk {
    pub(crate) course: Course,
    /// The leaf whose next triplet is wanted. At first each is, in turn, and then the one that was given last.
    pub(crate) wanted: Option<u32>,
    pub(crate) failed: Option<AssembleFault>,
    pub(crate) given: u64,
    pub(crate) taken: u64,
}

/// The leaf that is wanted first, where there are so many.
fn first_of(leaves: usize) -> Option<u32>
    ensures { result ≡ first_wanted leaves }
{
    if leaves == 0 { None } else { Some(0) }
}

/// How many triplets come, one or none.
#[inline(always)]
fn count_of(levels: Option<Levels>) -> u64
    ensures { result ≡ count_one (option_map levels_pair levels) }
{
    match levels {
        Some(_) => 1,
        None => 0,
    }
}

impl LevelWalk {
    ghost use Rattle.dr_walk.specs.Walking.{OverLevels, IsAtLevels, NoneHas, moves_over, behind_moves, is_fit, HasLevels, pending, wanted_behind as meant_behind, WantsNext, OverRecords, OverLeaves, IsNextOfWalk, IsWholeWalk, Nest, GoesNext, wanted_then};
    ghost use Rattle.dr_walk.specs.Standing.{Stands};
    ghost use Rattle.dr_moves.specs.Course.{Items};
    ghost use Rattle.dr_moves.specs.Turning.{Stack};

    /// A walk over columns of so many records at some leaves, each given by its path; the columns go by the places of
    /// the leaves.
    ///
    /// Errors: want of memory alone.
    pub fn start(
        alloc: Global,
        schema: &Schema,
        fields: &[&[Step]],
        rows: u64,
    ) -> Result<LevelWalk, NoMemory>
        requires leaves { list_all (is_leaf_path (fields_view (schema.now).fields.items)) (map lent_path fields.now)
            ≡ true }
        requires differ { all_differ (map lent_path fields.now) ≡ true }
        ensures at { IfOk result (λ w. (C : List (List meant_column.Triplet)) → length C ≡ length fields.now
            → IsAtLevels (fields_view (schema.now).fields.items) (map lent_path fields.now) rows C [] (columns_of C)
            w) }
        ensures wants { IfOk result (λ w. w.wanted ≡ first_wanted (length fields.now)) }
    {
        let table = table_of(alloc, schema, fields)?;
        let course = Course::start(alloc, table, fields.len(), rows)?;
        Ok(LevelWalk {
            course,
            wanted: first_of(fields.len()),
            failed: None,
            given: 0,
            taken: 0,
        })
    }

    /// The leaf whose next triplet is wanted, by its place in the selection.
    #[inline(always)]
    pub fn wants(&self) -> Option<u32>
        ensures { result ≡ self.now.wanted }
    {
        self.wanted
    }

    /// How many moves were given.
    pub fn given(&self) -> u64
        ensures { result ≡ self.now.given }
    {
        self.given
    }

    /// How many triplets were taken.
    pub fn taken(&self) -> u64
        ensures { result ≡ self.now.taken }
    {
        self.taken
    }

    /// Refuses the columns from now on: the value that the last move asked for isn't there.
    pub fn refuse(&mut self)
        ensures failed { self.new.failed ≡ Some AssembleFault.BadData }
        ensures wanted { self.new.wanted ≡ self.old.wanted }
    {
        self.failed = Some(AssembleFault::BadData);
    }

    /// Takes the levels of the next triplet of the leaf that is wanted, none at its column's end, and gives the next
    /// move, none where more is wanted first, and none once all was given. The move of a leaf asks for a value; where
    /// it isn't there, no records have the columns, and the walk is to be refused.
    ///
    /// Errors: no records have columns that go on so; want of memory. A walk repeats its refusal from then on.
    #[inline(always)]
    pub fn next(&mut self, more: Option<Levels>) -> Result<Option<LevelMove>, AssembleFault>
        requires more { self.old.wanted ≡ None → more ≡ None }
        // Where it stood over columns, it goes on over them.
        ensures on { OverLevels self.old more (λ fs F rows C ms left. IfOk result (λ m. is_fit left m ≡ true
            → IsAtLevels fs F rows C (ms ++ moves_over left m) (behind_moves (moves_over left m) left) self.new)) }
        // The levels of a leaf's move are those of the column's next triplet.
        ensures levels { OverLevels self.old more (λ fs F rows C ms left. IfOk result (HasLevels left)) }
        // Where records have the columns, their walk's moves are given, in order.
        ensures front { OverLevels self.old more (λ fs F rows C ms left. OverRecords fs F rows C (λ R.
            IfOk result (IsNextOfWalk fs F R ms left))) }
        // No records have columns that are refused.
        ensures bad { OverLevels self.old more (λ fs F rows C ms left.
            list_all (is_leaf_path fs) F ≡ true → IsErrOf result AssembleFault.BadData → NoneHas fs F C rows) }
        // Where nothing is wanted, no move comes exactly where records have the columns and their whole walk was given.
        ensures whole { OverLevels self.old more (λ fs F rows C ms left.
            list_all (is_leaf_path fs) F ≡ true → all_differ F ≡ true → result ≡ Ok None → self.new.wanted ≡ None
            → IsWholeWalk fs F rows C ms) }
        ensures last { OverLevels self.old more (λ fs F rows C ms left. OverRecords fs F rows C (λ R.
            meant.walk fs F R ≡ ms → IfOk result (λ m. m ≡ None))) }
        // Where a leaf is wanted after it, none is given only where this call took what was wanted.
        ensures asked { (i : ℕ) → result ≡ Ok None → self.new.wanted ≡ Some i → (j : ℕ) × (self.old.wanted ≡ Some j) }
        // A leaf is wanted before the first move, each in turn, and where the last move gave its triplet.
        ensures wants { OverLevels self.old more (λ fs F rows C ms left. IfOk result (λ m.
            WantsNext m (wanted_then self.old) self.new.wanted)) }
        // No leaf is wanted after its end.
        ensures ended { OverLevels self.old more (λ fs F rows C ms left. (i : ℕ)
            → self.old.wanted ≡ Some i → more ≡ None → self.new.wanted ≡ Some i → ⊥) }
        // Whatever the columns, each move nests on what is open.
        ensures nests { OverLevels self.old more (λ fs F rows C ms left. OverLeaves fs F (λ L. all_differ F ≡ true
            → IfOk result (λ m. is_fit left m ≡ true → Nest fs L (ms ++ moves_over left m)))) }
        // At most two moves are given for each record, and 65 for each triplet that was taken.
        ensures bound { OverLevels self.old more (λ fs F rows C ms left.
            list_all (is_leaf_path fs) F ≡ true → IfOk result (λ m. is_fit left m ≡ true
            → self.new.given ≤ 2 * rows + 65 * self.new.taken)) }
        // It repeats its refusal, and a refusal is one from then on.
        ensures again { (fault : AssembleFault) → self.old.failed ≡ Some fault → result ≡ Err fault }
        ensures refused { (fault : AssembleFault) → result ≡ Err fault → self.new.failed ≡ Some fault }
    {
        if let Some(fault) = self.failed {
            return Err(fault);
        }
        self.take(more);
        if self.wanted.is_some() {
            return Ok(None);
        }
        match self.go_on() {
            Ok(step) => Ok(step),
            Err(fault) => {
                self.failed = Some(fault);
                Err(fault)
            }
        }
    }

    /// Takes what comes of the leaf that is wanted, if one is.
    #[inline(always)]
    fn take(&mut self, more: Option<Levels>)
        ensures at { OverLevels self.old more (λ fs F rows C ms left. IsAtLevels fs F rows C ms left self.new) }
        ensures idle { self.old.wanted ≡ None → self.new.wanted ≡ None }
        ensures other { (i : ℕ) → self.old.wanted ≡ Some i → self.new.wanted ≡ Some i → ⊥ }
        ensures failed { self.new.failed ≡ self.old.failed }
        ensures next { OverLevels self.old more (λ fs F rows C ms left. self.new.wanted ≡ wanted_then self.old) }
    {
        if let Some(leaf) = self.wanted {
            self.keep(leaf, more);
            self.wanted = self.wanted_behind(leaf);
        }
    }

    /// Keeps what comes of a leaf.
    #[inline(always)]
    fn keep(&mut self, leaf: u32, more: Option<Levels>)
        ensures here { leaf < length self.old.course.heads.items → pending self.new leaf
            ≡ option_map levels_pair more }
        ensures others { (i : ℕ) → i ≢ leaf → pending self.new i ≡ pending self.old i }
        ensures heads { length self.new.course.heads.items ≡ length self.old.course.heads.items }
        ensures stands { (top : Items) (S : Stack) → Stands top self.old.course S → Stands top self.new.course S }
        ensures wanted { self.new.wanted ≡ self.old.wanted }
        ensures failed { self.new.failed ≡ self.old.failed }
        ensures given { self.new.given ≡ self.old.given }
        ensures taken { self.new.taken ≡ min (self.old.taken + count_one (option_map levels_pair more)) (2 ^ 64 - 1) }
    {
        self.taken = self.taken.saturating_add(count_of(more));
        self.course.hear(leaf, more);
    }

    /// The leaf that is wanted once this one's next triplet was taken: before the first move the next one.
    #[inline(always)]
    fn wanted_behind(&self, leaf: u32) -> Option<u32>
        ensures next { leaf + 1 < 2 ^ 32 → result ≡ meant_behind self.now.given (length self.now.course.heads.items)
            leaf }
        ensures other { result ≡ Some leaf → ⊥ }
    {
        let next = leaf.saturating_add(1);
        if self.given == 0 && leaf < next && (next as usize) < self.course.leaves() {
            Some(next)
        } else {
            None
        }
    }

    /// The next move, where nothing is wanted.
    #[inline(always)]
    fn go_on(&mut self) -> Result<Option<LevelMove>, AssembleFault>
        ensures goes { GoesNext self.old self.new result }
        ensures failed { self.new.failed ≡ self.old.failed }
        ensures rests { result ≡ Ok None → self.new.wanted ≡ self.old.wanted }
        ensures turns { self.old.wanted ≡ None → IfOk result (λ m. WantsNext m None self.new.wanted) }
        ensures stays { (fault : AssembleFault) → result ≡ Err fault → self.new.wanted ≡ self.old.wanted }
    {
        match self.course.step()? {
            Turn::Enters(number) => {
                self.given = self.given.saturating_add(1);
                Ok(Some(LevelMove::Enter(number)))
            }
            Turn::Leaves(number) => {
                self.given = self.given.saturating_add(1);
                Ok(Some(LevelMove::Leave(number)))
            }
            Turn::Gives(leaf, levels, kind) => Ok(Some(self.give_leaf(leaf, levels, kind))),
            Turn::Done => self.end(),
            Turn::Stops => Err(AssembleFault::BadData),
            Turn::Passes => unreachable!(),
        }
    }

    /// Gives a leaf's triplet. The leaf is wanted next.
    #[inline(always)]
    fn give_leaf(&mut self, leaf: u32, levels: Levels, kind: Option<Kind>) -> LevelMove
        ensures gives { result ≡ MeantMove.Leaf leaf levels kind }
        ensures wanted { self.new.wanted ≡ Some leaf }
        ensures given { self.new.given ≡ min (self.old.given + 1) (2 ^ 64 - 1) }
        ensures taken { self.new.taken ≡ self.old.taken }
        ensures failed { self.new.failed ≡ self.old.failed }
        ensures here { leaf < length self.old.course.heads.items
            → levels_at self.new.course.heads.items leaf ≡ None }
        ensures others { (i : ℕ) → i ≢ leaf → levels_at self.new.course.heads.items i
            ≡ levels_at self.old.course.heads.items i }
        ensures heads { length self.new.course.heads.items ≡ length self.old.course.heads.items }
        ensures stands { (top : Items) (S : Stack) → Stands top self.old.course S → Stands top self.new.course S }
    {
        self.wanted = Some(leaf);
        self.given = self.given.saturating_add(1);
        self.course.hear(leaf, None);
        LevelMove::Leaf(leaf, levels, kind)
    }

    /// At the end no triplet is left.
    fn end(&self) -> Result<Option<LevelMove>, AssembleFault>
        ensures ends { result ≡ Ok None → (i : ℕ) → levels_at self.now.course.heads.items i ≡ None }
        ensures left { result ≡ Err AssembleFault.BadData → (i : ℕ) × (levels_at self.now.course.heads.items i ≢ None) }
        ensures other { (m : MeantMove) → result ≡ Ok (Some m) → ⊥ }
        ensures memory { result ≡ Err AssembleFault.NoMemory → ⊥ }
    {
        if self.course.is_ended() {
            Ok(None)
        } else {
            Err(AssembleFault::BadData)
        }
    }
}
