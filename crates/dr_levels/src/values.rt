//! The values of a column, in one vector of their kind.

ghost use Rattle.std.specs.Prelude.{◌≡◌, ◌<◌, ◌≤◌, ◌+◌, ◌∷◌, [], length, take, drop, map, true, option_map, IfSome};
ghost use Rattle.dr_meaning.specs.Record.{bool_value, int_value};
ghost use Rattle.dr_meaning.specs.Schema as tree;
ghost use Rattle.dr_nested.specs.Views.{kind_view};
ghost use Rattle.std.specs.List.{list_all};
ghost use Rattle.dr_levels.specs.Texts.{is_text};
ghost use Rattle.dr_levels.specs.Dense.{values_view, value_list, text_values, holds_kind};
ghost use Rattle.dr_levels.specs.Views.{lent_value};
ghost use Rattle.dr_levels.specs.Lent.{lent_values, lends_kind};
ghost use Rattle.dr_levels.specs.Columns.{Adds, is_held};

use crate::text_place::TextPlace;
use crate::texts::Texts;
use crate::triplet::ValueRef;
use crate::values_ref::ValuesRef;
use dr_nested::{Kind, NoMemory};
use std::alloc::Global;

/// Values of one kind, in order.
#[derive(Drop)]
pub enum Values {
    Bools(Vec<bool>),
    Integers(Vec<i64>),
    Texts(Texts),
}

impl Values {
    /// No values of a kind.
    pub fn new(alloc: Global, kind: Kind) -> Values
        ensures none { values_view result ≡ [] }
        ensures kinds { holds_kind (kind_view kind) result ≡ true }
    {
        match kind {
            Kind::Bool => Values::Bools(Vec::new(alloc)),
            Kind::I32 | Kind::I64 => Values::Integers(Vec::new(alloc)),
            Kind::Text => Values::Texts(Texts::new(alloc)),
        }
    }

    /// How many there are.
    #[inline(always)]
    pub fn len(&self) -> usize
        ensures { result ≡ length (values_view self.now) }
    {
        match self {
            Values::Bools(truths) => truths.len(),
            Values::Integers(numbers) => numbers.len(),
            Values::Texts(texts) => texts.len(),
        }
    }

    /// The value of this number.
    #[inline(always)]
    pub fn get(&self, number: usize) -> ValueRef<'_>
        requires { number < length (values_view self.now) }
        ensures { drop number (values_view self.now) ≡ lent_value result ∷ drop (number + 1) (values_view self.now) }
    {
        match self {
            Values::Bools(truths) => ValueRef::Bool(truths[number]),
            Values::Integers(numbers) => {
                let value = numbers[number];
                ValueRef::Int(value)
            }
            Values::Texts(texts) => ValueRef::Text(texts.get(number)),
        }
    }

    /// So many values from a number on.
    #[inline]
    pub fn range(&self, from: usize, count: usize) -> ValuesRef<'_>
        requires { from + count ≤ length (values_view self.now) }
        ensures values { lent_values result ≡ take count (drop from (values_view self.now)) }
        ensures kinds { (k : tree.Kind) → holds_kind k self.now ≡ true → lends_kind k result ≡ true }
    {
        let end = from + count;
        match self {
            Values::Bools(truths) => ValuesRef::Bools(&truths[from..end]),
            Values::Integers(numbers) => ValuesRef::Integers(&numbers[from..end]),
            Values::Texts(texts) => texts.range(from, count),
        }
    }

    /// Appends a value of the kind, where one is given.
    ///
    /// Errors: want of memory, or of room for texts; nothing has changed then.
    #[inline(always)]
    pub fn push(&mut self, kind: Kind, value: Option<ValueRef<'_>>) -> Result<(), NoMemory>
        requires kinds { holds_kind (kind_view kind) self.old ≡ true }
        requires fits { IfSome value (λ v. is_held (kind_view kind) (lent_value v) ≡ true) }
        ensures values { Adds (values_view self.old) (values_view self.new)
            (value_list (option_map lent_value value.entry)) result }
        ensures kinds { (k : tree.Kind) → holds_kind k self.old ≡ true → holds_kind k self.new ≡ true }
    {
        match (self, value) {
            (_, None) => {}
            (Values::Bools(truths), Some(ValueRef::Bool(truth))) => truths.push(truth)?,
            (Values::Integers(numbers), Some(ValueRef::Int(number))) => numbers.push(number)?,
            (Values::Texts(texts), Some(ValueRef::Text(text))) => texts.push(text)?,
            _ => unreachable!(),
        }
        Ok(())
    }

    /// Drops all values behind the first so many.
    pub fn truncate(&mut self, count: usize)
        ensures values { values_view self.new ≡ take count (values_view self.old) }
        ensures kinds { (k : tree.Kind) → holds_kind k self.old ≡ true → holds_kind k self.new ≡ true }
    {
        match self {
            Values::Bools(truths) => truths.truncate(count),
            Values::Integers(numbers) => numbers.truncate(count),
            Values::Texts(texts) => texts.truncate(count),
        }
    }

    /// Drops all values, and keeps the room.
    pub fn clear(&mut self)
        ensures values { values_view self.new ≡ [] }
        ensures kinds { (k : tree.Kind) → holds_kind k self.old ≡ true → holds_kind k self.new ≡ true }
    {
        match self {
            Values::Bools(truths) => truths.clear(),
            Values::Integers(numbers) => numbers.clear(),
            Values::Texts(texts) => texts.clear(),
        }
    }

    /// Appends truth values.
    ///
    /// Errors: want of memory alone; nothing has changed then.
    pub fn extend_bools(&mut self, more: &[bool]) -> Result<(), NoMemory>
        requires kinds { holds_kind tree.bool_kind self.old ≡ true }
        ensures values { Adds (values_view self.old) (values_view self.new) (map bool_value more.now) result }
        ensures kinds { (k : tree.Kind) → holds_kind k self.old ≡ true → holds_kind k self.new ≡ true }
    {
        match self {
            Values::Bools(truths) => truths.extend_from_slice(more)?,
            _ => unreachable!(),
        }
        Ok(())
    }

    /// Appends whole numbers.
    ///
    /// Errors: want of memory alone; nothing has changed then.
    pub fn extend_integers(&mut self, more: &[i64]) -> Result<(), NoMemory>
        requires kinds { holds_kind tree.int64_kind self.old ≡ true }
        ensures values { Adds (values_view self.old) (values_view self.new) (map int_value more.now) result }
        ensures kinds { (k : tree.Kind) → holds_kind k self.old ≡ true → holds_kind k self.new ≡ true }
    {
        match self {
            Values::Integers(numbers) => numbers.extend_from_slice(more)?,
            _ => unreachable!(),
        }
        Ok(())
    }

    /// Appends texts that lie at places of a buffer.
    ///
    /// Errors: want of memory, or of room for texts; nothing has changed then.
    pub fn extend_texts(&mut self, bytes: &[u8], places: &[TextPlace]) -> Result<(), NoMemory>
        requires kinds { holds_kind tree.text_kind self.old ≡ true }
        requires texts { list_all (is_text bytes.now) places.now ≡ true }
        ensures values { Adds (values_view self.old) (values_view self.new) (text_values bytes.now places.now) result }
        ensures kinds { (k : tree.Kind) → holds_kind k self.old ≡ true → holds_kind k self.new ≡ true }
    {
        match self {
            Values::Texts(texts) => texts.extend(bytes, places)?,
            _ => unreachable!(),
        }
        Ok(())
    }
}
