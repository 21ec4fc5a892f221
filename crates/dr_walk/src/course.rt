//! The course of a walk, by levels alone.

ghost use Rattle.std.specs.Prelude.{◌≡◌, ◌<◌, ◌≢◌, ℕ, List, length, true, false, Option, Some, None, option_map, IfOk, Ok, replicate};
ghost use Rattle.dr_meaning.specs.Column.{Triplet as meant_triplet};
ghost use Rattle.dr_levels.specs.Views.{levels_pair};
ghost use Rattle.dr_moves.specs.Course.{Items};
ghost use Rattle.dr_moves.specs.Turning.{Stack, between};
ghost use Rattle.dr_walk.specs.Flat.{is_table};

use crate::laying::Table;
use crate::spot::Spot;
use crate::turn::Turn;
use dr_levels::Levels;
use dr_nested::NoMemory;
use std::alloc::Global;

/// A course that is gone through: its table, the levels that come next of each leaf, and where it stands.
#[derive(Drop)]
pub struct Course {
    pub(crate) table: Table,
    pub(crate) heads: Vec<Option<Levels>>,
    pub(crate) spot: Spot,
}

impl Course {
    ghost use Rattle.dr_walk.specs.Standing.{Stands, IsStep, Passes};
    ghost use Rattle.dr_walk.specs.Seen.{AreLevelsOf, levels_at};

    /// Before the first of so many records, with no levels known.
    ///
    /// Errors: want of memory alone.
    pub fn start(alloc: Global, table: Table, leaves: usize, rows: u64) -> Result<Course, NoMemory>
        ensures stands { IfOk result (λ c. (top : Items) → is_table top table → Stands top c (between rows)) }
        ensures heads { IfOk result (λ c. c.heads.items ≡ replicate leaves None) }
    {
        let mut heads = Vec::new(alloc);
        heads.resize(leaves, None)?;
        Ok(Course {
            table,
            heads,
            spot: Spot::start(alloc, rows)?,
        })
    }

    /// How many leaves there are.
    #[inline(always)]
    pub fn leaves(&self) -> usize
        ensures { result ≡ length self.now.heads.items }
    {
        self.heads.len()
    }

    /// The levels of a leaf come next, or there are none.
    #[inline(always)]
    pub fn hear(&mut self, leaf: u32, levels: Option<Levels>)
        ensures here { leaf < length self.old.heads.items → levels_at self.new.heads.items leaf
            ≡ option_map levels_pair levels }
        ensures others { (i : ℕ) → i ≢ leaf → levels_at self.new.heads.items i ≡ levels_at self.old.heads.items i }
        ensures as_many { length self.new.heads.items ≡ length self.old.heads.items }
        ensures stands { (top : Items) (S : Stack) → Stands top self.old S → Stands top self.new S }
    {
        if let Some(head) = self.heads.get_mut(leaf as usize) {
            *head = levels;
        }
    }

    /// Whether no leaf has levels that come next.
    pub fn is_ended(&self) -> bool
        ensures ended { result ≡ true → (i : ℕ) → levels_at self.now.heads.items i ≡ None }
        ensures left { result ≡ false → (i : ℕ) × (levels_at self.now.heads.items i ≢ None) }
    {
        'heads: for head in self.heads.iter() {
            if head.is_some() {
                return false;
            }
        }
        true
    }

    /// The next turn.
    ///
    /// Errors: want of memory alone.
    #[inline(always)]
    pub fn turn(&mut self) -> Result<Turn, NoMemory>
        ensures turn { IfOk result (λ t. (top : Items) (S : Stack) (ts : ℕ → Option meant_triplet)
            → Stands top self.old S → AreLevelsOf self.old.heads.items ts → IsStep top S ts self.new t) }
        ensures heads { self.new.heads.items ≡ self.old.heads.items }
        ensures table { self.new.table ≡ self.old.table }
        ensures passes { IfOk result (Passes (length self.old.table.items.items) self.old.spot.here.place
            self.new.spot.here.place) }
    {
        self.spot.turn(&self.table, &self.heads)
    }

    /// Turns until one makes a move, or ends it.
    ///
    /// Errors: want of memory alone.
    #[inline(always)]
    pub fn step(&mut self) -> Result<Turn, NoMemory>
        ensures step { IfOk result (λ t. (top : Items) (S : Stack) (ts : ℕ → Option meant_triplet)
            → Stands top self.old S → AreLevelsOf self.old.heads.items ts → IsStep top S ts self.new t) }
        ensures heads { self.new.heads.items ≡ self.old.heads.items }
        ensures ends { result ≡ Ok Turn.Passes → ⊥ }
    {
        'turns: loop {
            match self.turn()? {
                Turn::Passes => {}
                turn => return Ok(turn),
            }
        }
    }
}
