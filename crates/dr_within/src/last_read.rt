//! What was read last of each leaf, kept from one stretch of moves to the next.

ghost use Rattle.std.specs.Prelude.{◌≡◌, ◌<◌, [], ℕ, List, length, map, option_map, slice_set, None, IfOk, OnOk};
ghost use Rattle.dr_levels.specs.Views.{lent_value};
ghost use Rattle.dr_meaning.specs.Walk.{Move as MeantMove};
ghost use Rattle.dr_within.specs.Rows.{HasRead, HasLast, last_value};

use crate::row::Row;
use dr_levels::ValueRef;
use dr_memory::NoMemory;
use std::alloc::Global;

/// What a value is; a text lies in the buffer beside it.
#[derive(Clone, Copy, PartialEq, Eq)]
pub(crate) enum Scalar {
    Null,
    Bool(bool),
    Int(i64),
    Text,
}

/// A value or NULL, of its own. The buffer of its text is used again.
#[derive(Drop)]
pub(crate) struct LastValue {
    pub(crate) scalar: Scalar,
    pub(crate) text: String,
}

impl LastValue {
    /// NULL.
    fn new(alloc: Global) -> LastValue
        ensures { last_value result ≡ None }
    {
        LastValue {
            scalar: Scalar::Null,
            text: String::new(alloc),
        }
    }

    /// The value, lent.
    fn lent(&self) -> Option<ValueRef<'_>>
        ensures { option_map lent_value result ≡ last_value self.now }
    {
        match self.scalar {
            Scalar::Null => None,
            Scalar::Bool(truth) => Some(ValueRef::Bool(truth)),
            Scalar::Int(number) => Some(ValueRef::Int(number)),
            Scalar::Text => Some(ValueRef::Text(self.text.as_str())),
        }
    }

    /// Another value in its place.
    ///
    /// Errors: want of memory alone.
    fn keep(&mut self, value: Option<ValueRef<'_>>) -> Result<(), NoMemory>
        ensures { OnOk result (last_value self.new ≡ option_map lent_value value.entry) }
    {
        match value {
            None => self.scalar = Scalar::Null,
            Some(ValueRef::Bool(truth)) => self.scalar = Scalar::Bool(truth),
            Some(ValueRef::Int(number)) => self.scalar = Scalar::Int(number),
            Some(ValueRef::Text(text)) => {
                self.text.clear();
                self.text.push_str(text)?;
                self.scalar = Scalar::Text;
            }
        }
        Ok(())
    }
}

/// Another value in the place of this number.
///
/// Errors: want of memory alone.
fn keep_at(
    values: &mut Vec<LastValue>,
    number: usize,
    value: Option<ValueRef<'_>>,
) -> Result<(), NoMemory>
    ensures here { OnOk result (number < length (values.old).items → map last_value (values.new).items
        ≡ slice_set (map last_value (values.old).items) number (option_map lent_value value.entry)) }
    ensures as_many { length (values.new).items ≡ length (values.old).items }
{
    match values.get_mut(number) {
        Some(held) => held.keep(value),
        None => Ok(()),
    }
}

/// What was read last of each of a plan's leaves, of its own.
#[derive(Drop)]
pub struct LastRead {
    pub(crate) values: Vec<LastValue>,
}

impl LastRead {
    /// Nothing was read yet of so many leaves.
    ///
    /// Errors: want of memory alone.
    pub fn new(alloc: Global, leaves: usize) -> Result<LastRead, NoMemory>
        ensures { IfOk result (HasLast leaves []) }
    {
        let mut values = Vec::with_capacity(alloc, leaves)?;
        'leaves: for _ in 0..leaves {
            values.push(LastValue::new(alloc))?;
        }
        Ok(LastRead { values })
    }

    /// The values, lent for a stretch of moves.
    ///
    /// Errors: want of memory alone.
    pub fn lend(&self, alloc: Global) -> Result<Row<'_>, NoMemory>
        ensures { IfOk result (λ r. (n : ℕ) (ms : List MeantMove) → HasLast n ms self.now → HasRead n ms r) }
    {
        let mut slots = Vec::with_capacity(alloc, self.values.len())?;
        'values: for value in self.values.iter() {
            slots.push(value.lent())?;
        }
        Ok(Row {
            slots,
            key: Vec::new(alloc),
        })
    }

    /// Keeps what was read last of as many leaves, at the end of a stretch of moves.
    ///
    /// Errors: want of memory alone.
    pub fn keep(&mut self, row: &Row<'_>) -> Result<(), NoMemory>
        ensures last { OnOk result ((ms : List MeantMove) → HasRead (length (self.old).values.items) ms row.now
            → HasLast (length (self.old).values.items) ms self.new) }
        ensures as_many { length (self.new).values.items ≡ length (self.old).values.items }
    {
        'slots: for (number, value) in row.slots.iter().enumerate() {
            keep_at(&mut self.values, number, *value)?;
        }
        Ok(())
    }
}
