//! Rows of columns side by side: those of a leaf's triplets, with the values of leaves beside it.

ghost use Rattle.std.specs.Prelude.{◌≡◌, ◌<◌, map, length, replicate, true, Some, None, IfOk};
ghost use Rattle.std.specs.List.{list_all};
ghost use Rattle.dr_levels.specs.Views.{triplets_view};
ghost use Rattle.dr_beside.specs.Neighbours.{column_at};
ghost use Rattle.dr_rows_beside.specs.Places.{place_left};
ghost use Rattle.dr_rows_beside.specs.Rows.{is_fed, can_step, stepped, put_next, put_each, follower_view, slots_view};
ghost use Rattle.dr_rows_beside.specs.Rows.{IsFirstBit};

use crate::place::Place;
use crate::source::Source;
use dr_levels::{Triplets, ValueRef};
use dr_memory::NoMemory;
use std::alloc::Global;

/// Rows, from the next one on, and the values of the last one.
#[derive(Drop)]
pub struct Rows<'r, 'b> {
    own: Place<'r>,
    beside: Vec<Place<'r>>,
    /// Whether each row comes that isn't read yet; where they end, all do.
    bits: &'b [bool],
    pub slots: Vec<Option<ValueRef<'r>>>,
    pub ghost own_slot: { own.leaf < length slots.items },
    pub ghost fed: { list_all (is_fed (place_left own) (length slots.items)) (map follower_view beside.items) ≡ true },
}

/// Reads a leaf on, if it goes on at a repetition level.
#[inline(always)]
fn follow<'r>(other: &mut Place<'r>, repetition: u8, slots: &mut [Option<ValueRef<'r>>])
    requires { can_step repetition (length slots.old) (follower_view other.old) ≡ true }
    ensures place { follower_view other.new ≡ stepped repetition (follower_view other.old) }
    ensures slots { slots_view slots.new ≡ put_next repetition (follower_view other.old) (slots_view slots.old) }
{
    if repetition <= other.depth {
        let value = other.next();
        slots[other.leaf] = value;
    }
}

/// Reads those leaves on that go on at a repetition level.
#[inline(always)]
fn follow_each<'r>(beside: &mut [Place<'r>], repetition: u8, slots: &mut [Option<ValueRef<'r>>])
    requires { list_all (can_step repetition (length slots.old)) (map follower_view beside.old) ≡ true }
    ensures places { map follower_view beside.new ≡ map (stepped repetition) (map follower_view beside.old) }
    ensures slots { slots_view slots.new
        ≡ put_each repetition (map follower_view beside.old) (slots_view slots.old) }
{
    'beside: for other in beside.iter_mut() {
        follow(other, repetition, slots);
    }
}

/// Whether the first of some rows comes, by their bits, and the bits of the others.
#[inline(always)]
fn first_bit<'b>(bits: &'b [bool]) -> (bool, &'b [bool])
    ensures { IsFirstBit bits.now result.0 (result.1).now }
{
    match bits {
        [] => (true, bits),
        [first, rest @ ..] => (*first, rest),
    }
}

impl<'r, 'b> Rows<'r, 'b> {
    ghost use Rattle.dr_rows_beside.specs.Rows.{source_view, run, picked, NextRow};
    ghost use Rattle.dr_rows_beside.specs.RowsView.{all_rows_view, rows_view};

    /// Before the first row of a source in some columns.
    ///
    /// Errors: want of memory alone.
    pub fn new(
        alloc: Global,
        source: &Source,
        columns: &[Triplets<'r>],
    ) -> Result<Rows<'r, 'b>, NoMemory>
        requires leaf { (source.now).leaf < length columns.now }
        requires fed { list_all (is_fed (column_at (map triplets_view columns.now) (source.now).leaf)
            (length columns.now))
            (map (source_view (map triplets_view columns.now)) ((source.now).beside).items) ≡ true }
        ensures { IfOk result (λ r. rows_view r ≡ run (source.now).leaf
            (map (source_view (map triplets_view columns.now)) ((source.now).beside).items)
            (replicate (length columns.now) None) (column_at (map triplets_view columns.now) (source.now).leaf)) }
    {
        Rows::kept(alloc, source, columns, &[])
    }

    /// Before the first of those rows of which the bit is set.
    ///
    /// Errors: want of memory alone.
    pub fn kept(
        alloc: Global,
        source: &Source,
        columns: &[Triplets<'r>],
        bits: &'b [bool],
    ) -> Result<Rows<'r, 'b>, NoMemory>
        requires leaf { (source.now).leaf < length columns.now }
        requires fed { list_all (is_fed (column_at (map triplets_view columns.now) (source.now).leaf)
            (length columns.now))
            (map (source_view (map triplets_view columns.now)) ((source.now).beside).items) ≡ true }
        ensures { IfOk result (λ r. rows_view r ≡ picked bits.now (run (source.now).leaf
            (map (source_view (map triplets_view columns.now)) ((source.now).beside).items)
            (replicate (length columns.now) None) (column_at (map triplets_view columns.now) (source.now).leaf))) }
    {
        let mut slots: Vec<Option<ValueRef<'r>>> = Vec::new(alloc);
        slots.resize(columns.len(), None)?;
        let mut beside: Vec<Place<'r>> = Vec::with_capacity(alloc, source.beside.len())?;
        'beside: for other in &source.beside {
            beside.push(Place::new(other.leaf, other.depth, columns))?;
        }
        Ok(Rows {
            own: Place::new(source.leaf, 0, columns),
            beside,
            bits,
            slots,
        })
    }

    /// Reads the next row, whether it comes or not; none at the end. Answers its repetition level.
    #[inline(always)]
    fn read(&mut self) -> Option<u8>
        ensures row { NextRow (all_rows_view self.old) (all_rows_view self.new)
            (slots_view ((self.new).slots).items) result }
        ensures bits { (self.new).bits ≡ (self.old).bits }
    {
        match self.own.peek() {
            None => None,
            Some(repetition) => {
                let value = self.own.next();
                self.slots[self.own.leaf] = value;
                follow_each(
                    self.beside.as_mut_slice(),
                    repetition,
                    self.slots.as_mut_slice(),
                );
                Some(repetition)
            }
        }
    }

    /// The next row that comes; none at the end. Answers its repetition level.
    #[inline(always)]
    pub fn next(&mut self) -> Option<u8>
        ensures { NextRow (rows_view self.old) (rows_view self.new) (slots_view ((self.new).slots).items) result }
    {
        'rows: while let Some(repetition) = self.read() {
            let (comes, rest) = first_bit(self.bits);
            self.bits = rest;
            if comes {
                return Some(repetition);
            }
        }
        None
    }
}
