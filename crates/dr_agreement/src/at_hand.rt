//! What is at hand of a leaf's column.

ghost use Rattle.std.specs.Prelude.{◌≡◌, ◌≤◌, length, drop};
ghost use Rattle.dr_meaning.specs.OneColumn.{starts};
ghost use Rattle.dr_levels.specs.Views.{column_form, column_view};

use crate::append::append;
use crate::cuts::{count_records, length_of};
use dr_levels::{Column, Triplets};
use dr_memory::NoMemory;
use dr_nested::Kind;
use std::alloc::Global;
use std::mem;

/// What was at hand of a leaf whose column is lent: how many triplets, and how many records begin in them.
#[derive(Clone, Copy)]
pub struct Kept {
    pub triplets: usize,
    pub begun: usize,
}

/// What is at hand of a leaf's column: the triplets that are left, and how many records begin in them.
#[derive(Drop)]
pub struct AtHand {
    column: Column,
    /// How many triplets of the column were passed.
    passed: usize,
    /// How many records begin in the others.
    begun: usize,
    /// Whether nothing comes behind them.
    ended: bool,
    ghost within: { passed ≤ length (column_view column) },
    ghost counted: { begun ≡ starts (drop passed (column_view column)) },
}

impl AtHand {
    ghost use Rattle.std.specs.Prelude.{◌++◌, ◌-◌, ◌==◌, [], take, false, true, IfOk, OnOk, OnErr};
    ghost use Rattle.dr_meaning.specs.OneColumn.{begins_record};
    ghost use Rattle.dr_nested.specs.Views.{kind_view};
    ghost use Rattle.dr_levels.specs.Views.{form as meant_form, triplets_form, triplets_view};
    ghost use Rattle.dr_agreement.specs.AtHand.{rest_of, form_of, whole_of, IsFrontOf, CanPass, IsKept};

    /// Nothing of the column of a leaf of a kind with this greatest definition level.
    pub fn new(alloc: Global, kind: Kind, greatest: u8) -> AtHand
        ensures empty { rest_of result ≡ [] }
        ensures form { form_of result ≡ meant_form (kind_view kind) greatest }
        ensures ended { result.ended ≡ false }
    {
        AtHand {
            column: Column::new(alloc, kind, greatest),
            passed: 0,
            begun: 0,
            ended: false,
        }
    }

    /// How many triplets are left.
    pub fn len(&self) -> usize
        ensures { result ≡ length (rest_of self.now) }
    {
        self.column.len() - self.passed
    }

    /// Whether none is left.
    pub fn is_empty(&self) -> bool
        ensures { result ≡ (length (rest_of self.now) == 0) }
    {
        self.len() == 0
    }

    /// How many whole records there are: the last that begins may go on, unless nothing comes behind it.
    pub fn whole(&self) -> usize
        ensures { result ≡ whole_of self.now }
    {
        if self.ended {
            self.begun
        } else {
            self.begun.saturating_sub(1)
        }
    }

    /// Whether it has no whole record, and more may come.
    pub fn wants_more(&self) -> bool
        ensures may { result ≡ true → (self.now).ended ≡ false }
        ensures none { result ≡ false → whole_of self.now ≡ 0 → (self.now).ended ≡ true }
    {
        !self.ended && self.whole() == 0
    }

    /// The triplets that are left.
    pub fn rest(&self) -> Triplets<'_>
        ensures rest { triplets_view result ≡ rest_of self.now }
        ensures form { triplets_form result ≡ form_of self.now }
    {
        self.column.triplets().split_at(self.passed).1
    }

    /// The triplets of the first so many records that begin.
    pub fn front(&self, records: usize) -> Triplets<'_>
        requires { records ≤ starts (rest_of self.now) }
        ensures { IsFrontOf records (rest_of self.now) (triplets_view result) }
    {
        let rest = self.rest();
        rest.split_at(length_of(rest, records)).0
    }

    /// Passes so many triplets, in which so many records begin.
    pub fn pass(&mut self, count: usize, records: usize)
        requires { CanPass (rest_of self.old) count records }
        ensures rest { rest_of self.new ≡ drop count (rest_of self.old) }
        ensures ended { (self.new).ended ≡ (self.old).ended }
        ensures form { form_of self.new ≡ form_of self.old }
    {
        self.passed += count;
        self.begun -= records;
    }

    /// Lends the column with what is left, in the place of another column of the leaf, so that more joins it. What was
    /// passed is let go of, and nothing is left until the column is taken back.
    ///
    /// Errors: want of memory alone. What is left stays then.
    pub fn lend(&mut self, out: &mut Column) -> Result<Kept, NoMemory>
        requires { column_form out.old ≡ form_of self.old }
        ensures column { OnOk result (column_view out.new ≡ rest_of self.old) }
        ensures kept { IfOk result (IsKept (rest_of self.old)) }
        ensures lent { OnOk result (rest_of self.new ≡ []) }
        ensures stays { OnErr result (rest_of self.new ≡ rest_of self.old) }
        ensures ended { (self.new).ended ≡ (self.old).ended }
        ensures form { form_of self.new ≡ form_of self.old }
        ensures column_form { column_form out.new ≡ column_form out.old }
    {
        let kept = Kept {
            triplets: self.len(),
            begun: self.begun,
        };
        if self.passed == 0 {
            mem::swap(&mut self.column, out);
        } else {
            out.clear();
            append(self.rest(), out)?;
        }
        self.passed = self.column.len();
        self.begun = 0;
        Ok(kept)
    }

    /// Takes back a column that was lent, with what joined it, and whether nothing comes behind that. Another column of
    /// the leaf is in its place then.
    pub fn take_back(&mut self, column: &mut Column, kept: Kept, ended: bool)
        requires form { column_form column.old ≡ form_of self.old }
        requires kept { CanPass (column_view column.old) kept.triplets kept.begun }
        ensures rest { rest_of self.new ≡ column_view column.old }
        ensures ended { (self.new).ended ≡ ended }
        ensures form { form_of self.new ≡ form_of self.old }
        ensures column_form { column_form column.new ≡ column_form column.old }
    {
        mem::swap(&mut self.column, column);
        let more = self.column.triplets().split_at(kept.triplets).1;
        self.begun = kept.begun + count_records(more);
        self.passed = 0;
        self.ended = ended;
    }

    /// Puts what is left at the end of a column of the leaf, in the place of what that has, and answers how many
    /// triplets they are. None is left then.
    pub fn give(&mut self, out: &mut Column) -> usize
        requires { column_form out.old ≡ form_of self.old }
        ensures rest { drop (length (column_view out.new) - result) (column_view out.new) ≡ rest_of self.old }
        ensures form { column_form out.new ≡ column_form out.old }
        ensures same_form { form_of self.new ≡ form_of self.old }
    {
        let left = self.len();
        mem::swap(&mut self.column, out);
        self.passed = self.column.len();
        self.begun = 0;
        left
    }
}
