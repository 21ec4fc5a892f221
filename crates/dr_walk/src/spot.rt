//! Where a walk stands in its table.

ghost use Rattle.std.specs.Prelude.{◌≡◌, ◌<◌, ◌≤◌, ◌+◌, ◌-◌, ◌^◌, ℕ, List, [], length, Some, None, Option, option_map, IfOk, OnOk};
ghost use Rattle.std.specs.List.{slice_get};
ghost use Rattle.dr_levels.specs.declared.triplet.Levels as levels;
ghost use Rattle.dr_walk.specs.Laying as laid;
ghost use Rattle.dr_walk.specs.Seen.{lap_there, looks_there, due_levels, TakesLast};
ghost use Rattle.dr_walk.specs.Views.{items_view, groups_view, give_view, visit_view, lap_view};

use crate::heads::{definition, head, look, repetition, take_seen};
use crate::items::{Gate, Give, Item, Lap, Visit};
use crate::laying::Table;
use crate::turn::Turn;
use dr_levels::Levels;
use dr_nested::NoMemory;
use std::alloc::Global;

/// The deepest that repeated fields stand in each other, with the record round them.
const MOST_FRAMES: usize = 33;

/// The place of the next item of an instance, and the repetition level with which the instance began.
#[derive(Clone, Copy, PartialEq, Eq)]
pub struct Frame {
    pub place: usize,
    pub begun: u8,
}

/// Whether a walk is between records, in an instance, or at the end of one that another follows.
#[derive(Clone, Copy, PartialEq, Eq)]
pub enum Stage {
    Between,
    Within,
    Again,
}

/// Where a walk stands.
#[derive(Drop)]
pub struct Spot {
    pub(crate) stage: Stage,
    /// How many records are still to come.
    pub(crate) rows: u64,
    pub(crate) here: Frame,
    /// The definition level of the NULLs of a repeated field that is absent.
    pub(crate) absent: u8,
    /// The instances round this one, the innermost last.
    pub(crate) returns: Vec<Frame>,
    /// What was seen of the gates of items that are still to be gone through, the next last.
    pub(crate) shut: Vec<Option<u8>>,
}

/// The repeated field whose instance ends at a place.
#[inline(always)]
fn lap_at(items: &[Item], place: usize) -> Option<Lap>
    ensures { option_map lap_view result ≡ lap_there (slice_get (items_view items.now) place) }
{
    match items.get(place) {
        Some(Item::End(lap)) => *lap,
        Some(Item::Look(_) | Item::Give(_) | Item::Visit(_) | Item::Null(_)) | None => None,
    }
}

/// The gates of the items of an instance that begins at a place.
#[inline(always)]
fn looks_at(items: &[Item], place: usize) -> &[Vec<Gate>]
    ensures { groups_view result.now ≡ looks_there (slice_get (items_view items.now) place) }
{
    match items.get(place) {
        Some(Item::Look(groups)) => groups.as_slice(),
        Some(Item::Give(_) | Item::Visit(_) | Item::Null(_) | Item::End(_)) | None => &[],
    }
}

/// The next levels of a leaf that has a NULL of a definition level, in an instance that began with a repetition level.
#[inline(always)]
fn due_null(absent: u8, begun: u8, next: Option<Levels>) -> Option<Levels>
    ensures { result ≡ due_levels 0 0 (Some absent) begun next }
{
    match next {
        Some(levels) => {
            if levels.repetition == begun && levels.definition == absent {
                Some(levels)
            } else {
                None
            }
        }
        None => None,
    }
}

/// The place behind so many more items, at most their end.
#[inline(always)]
fn behind_nulls(items: &[Item], place: usize, nulls: usize) -> usize
    ensures { place + nulls ≤ length items.now → result ≡ place + nulls }
{
    place.saturating_add(nulls).min(items.len())
}

/// Takes the innermost of the instances to which a walk returns.
#[inline(always)]
fn take_frame(returns: &mut Vec<Frame>) -> Option<Frame>
    ensures { TakesLast (returns.old).items (returns.new).items result }
{
    returns.pop()
}

impl Spot {
    ghost use Rattle.dr_walk.specs.Standing.{Turns, TurnsAt, Begins, Passes};

    /// Before the first of so many records.
    ///
    /// Errors: want of memory alone.
    pub fn start(alloc: Global, rows: u64) -> Result<Spot, NoMemory>
        ensures stage { IfOk result (λ p. p.stage ≡ Stage.Between) }
        ensures rows { IfOk result (λ p. p.rows ≡ rows) }
        ensures returns { IfOk result (λ p. p.returns.items ≡ []) }
        ensures shut { IfOk result (λ p. p.shut.items ≡ []) }
    {
        Ok(Spot {
            stage: Stage::Between,
            rows,
            here: Frame { place: 0, begun: 0 },
            absent: 0,
            returns: Vec::with_capacity(alloc, MOST_FRAMES)?,
            shut: Vec::new(alloc),
        })
    }

    /// The next turn.
    ///
    /// Errors: want of memory alone.
    #[inline(always)]
    pub fn turn(&mut self, table: &Table, heads: &[Option<Levels>]) -> Result<Turn, NoMemory>
        ensures turn { IfOk result (Turns (items_view (table.now).items.items) (table.now).root heads.now self.old
            self.new) }
        ensures passes { IfOk result (Passes (length (table.now).items.items) self.old.here.place self.new.here.place) }
    {
        match self.stage {
            Stage::Between => self.begin_record(&table.items, table.root, heads),
            Stage::Within => self.pass_item(&table.items, heads),
            Stage::Again => self.begin_again(&table.items, heads),
        }
    }

    /// Into the next record, where there is one.
    #[inline(always)]
    fn begin_record(
        &mut self,
        items: &[Item],
        root: usize,
        heads: &[Option<Levels>],
    ) -> Result<Turn, NoMemory>
        requires { self.old.stage ≡ Stage.Between }
        ensures turn { IfOk result (Turns (items_view items.now) root heads.now self.old self.new) }
        ensures passes { IfOk result (Passes (length items.now) self.old.here.place self.new.here.place) }
    {
        if self.rows == 0 {
            return Ok(Turn::Done);
        }
        self.rows -= 1;
        self.begin(items, heads, root, 0)?;
        Ok(Turn::Enters(0))
    }

    /// Into one more instance of the field at whose end the walk stands.
    #[inline(always)]
    fn begin_again(&mut self, items: &[Item], heads: &[Option<Levels>]) -> Result<Turn, NoMemory>
        requires { self.old.stage ≡ Stage.Again }
        ensures turn { (root : ℕ) → IfOk result (Turns (items_view items.now) root heads.now self.old self.new) }
        ensures passes { IfOk result (Passes (length items.now) self.old.here.place self.new.here.place) }
    {
        match lap_at(items, self.here.place) {
            Some(lap) => {
                self.begin(items, heads, lap.body, lap.level)?;
                Ok(Turn::Enters(lap.number))
            }
            None => Ok(Turn::Stops),
        }
    }

    /// Goes to the items of an instance that begins with a repetition level, and looks at their gates.
    #[inline(always)]
    fn begin(
        &mut self,
        items: &[Item],
        heads: &[Option<Levels>],
        body: usize,
        begun: u8,
    ) -> Result<(), NoMemory>
        ensures rows { self.new.rows ≡ self.old.rows }
        ensures returns { self.new.returns ≡ self.old.returns }
        ensures begins { OnOk result (body < length items.now
            → Begins (items_view items.now) heads.now body begun self.old self.new) }
    {
        look(heads, looks_at(items, body), &mut self.shut)?;
        self.stage = Stage::Within;
        self.here = Frame {
            place: body.saturating_add(1),
            begun,
        };
        Ok(())
    }

    /// Past the next item of an instance.
    #[inline(always)]
    fn pass_item(&mut self, items: &[Item], heads: &[Option<Levels>]) -> Result<Turn, NoMemory>
        requires { self.old.stage ≡ Stage.Within }
        ensures turn { (root : ℕ) → IfOk result (Turns (items_view items.now) root heads.now self.old self.new) }
        ensures passes { IfOk result (Passes (length items.now) self.old.here.place self.new.here.place) }
    {
        match items.get(self.here.place) {
            Some(Item::Give(give)) => Ok(self.pass_give(give, heads)),
            Some(Item::Null(leaf)) => Ok(self.pass_null(*leaf, heads)),
            Some(Item::Visit(visit)) => self.pass_visit(visit, items, heads),
            Some(Item::End(Some(lap))) => Ok(self.pass_end(lap, heads)),
            Some(Item::End(None)) => Ok(self.end_record()),
            Some(Item::Look(_)) => Ok(Turn::Stops),
            None => Ok(Turn::Stops),
        }
    }

    /// A leaf, where its next levels are due.
    #[inline(always)]
    fn pass_give(&mut self, give: &Give, heads: &[Option<Levels>]) -> Turn
        requires { self.old.here.place < 2 ^ 64 - 1 }
        ensures moves { (n : ℕ) → Passes n self.old.here.place self.new.here.place result }
        ensures turn { (code : List laid.FlatItem) (root : ℕ)
            → TurnsAt code (laid.flat_give (give_view give.now)) root heads.now self.old self.new result }
    {
        let seen = take_seen(&mut self.shut, give.gated);
        match give.due(seen, self.here.begun, head(heads, give.leaf)) {
            Some(levels) => {
                self.here.place += 1;
                Turn::Gives(give.leaf, levels, give.kind_at(levels))
            }
            None => Turn::Stops,
        }
    }

    /// A leaf below a repeated field that is absent, where its next levels are due.
    #[inline(always)]
    fn pass_null(&mut self, leaf: u32, heads: &[Option<Levels>]) -> Turn
        requires { self.old.here.place < 2 ^ 64 - 1 }
        ensures moves { (n : ℕ) → Passes n self.old.here.place self.new.here.place result }
        ensures turn { (code : List laid.FlatItem) (root : ℕ)
            → TurnsAt code (laid.flat_null leaf) root heads.now self.old self.new result }
    {
        match due_null(self.absent, self.here.begun, head(heads, leaf)) {
            Some(levels) => {
                self.here.place += 1;
                Turn::Gives(leaf, levels, None)
            }
            None => Turn::Stops,
        }
    }

    /// Into the first instance of a repeated field, or to the NULLs of its leaves where it is absent.
    #[inline(always)]
    fn pass_visit(
        &mut self,
        visit: &Visit,
        items: &[Item],
        heads: &[Option<Levels>],
    ) -> Result<Turn, NoMemory>
        requires { self.old.here.place < length items.now }
        ensures turn { (root : ℕ) → IfOk result (TurnsAt (items_view items.now) (laid.flat_visit (visit_view
            visit.now)) root heads.now self.old self.new) }
        ensures passes { IfOk result (Passes (length items.now) self.old.here.place self.new.here.place) }
    {
        let seen = take_seen(&mut self.shut, visit.gated);
        match visit.absent_level(seen, definition(heads, visit.leaf)) {
            Some(level) => Ok(self.pass_absent(level)),
            None => {
                self.returns.push(Frame {
                    place: behind_nulls(items, self.here.place + 1, visit.nulls),
                    begun: self.here.begun,
                })?;
                self.begin(items, heads, visit.body, self.here.begun)?;
                Ok(Turn::Enters(visit.number))
            }
        }
    }

    /// To the NULLs of the leaves of a repeated field that is absent at this definition level.
    #[inline(always)]
    fn pass_absent(&mut self, definition: u8) -> Turn
        requires { self.old.here.place < 2 ^ 64 - 1 }
        ensures passes { result ≡ Turn.Passes }
        ensures place { self.new.here ≡ record { place = self.old.here.place + 1; begun = self.old.here.begun } }
        ensures absent { self.new.absent ≡ definition }
        ensures rows { self.new.rows ≡ self.old.rows }
        ensures stage { self.new.stage ≡ self.old.stage }
        ensures returns { self.new.returns ≡ self.old.returns }
        ensures shut { self.new.shut ≡ self.old.shut }
    {
        self.absent = definition;
        self.here.place += 1;
        Turn::Passes
    }

    /// Out of an instance of a repeated field.
    #[inline(always)]
    fn pass_end(&mut self, lap: &Lap, heads: &[Option<Levels>]) -> Turn
        ensures moves { (n : ℕ) → Passes n self.old.here.place self.new.here.place result }
        ensures turn { (code : List laid.FlatItem) (root : ℕ)
            → TurnsAt code (laid.flat_end (Some (lap_view lap.now))) root heads.now self.old self.new result }
    {
        if repetition(heads, lap.leaf) == lap.level {
            self.stage = Stage::Again;
        } else {
            match take_frame(&mut self.returns) {
                Some(frame) => self.here = frame,
                None => return Turn::Stops,
            }
        }
        Turn::Leaves(lap.number)
    }

    /// Out of a record.
    #[inline(always)]
    fn end_record(&mut self) -> Turn
        ensures moves { (n : ℕ) → Passes n self.old.here.place self.new.here.place result }
        ensures turn { (code : List laid.FlatItem) (root : ℕ) (heads : List (Option levels.Levels))
            → TurnsAt code (laid.flat_end None) root heads self.old self.new result }
    {
        self.stage = Stage::Between;
        Turn::Leaves(0)
    }
}
