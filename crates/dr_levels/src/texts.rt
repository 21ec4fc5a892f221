//! Texts one after another, by their places in one buffer of bytes.

ghost use Rattle.std.specs.Prelude.{◌≡◌, true};
ghost use Rattle.std.specs.List.{list_all};
ghost use Rattle.dr_levels.specs.Texts.{is_text};

use crate::text_place::{TextPlace, push_moved};
use crate::values_ref::ValuesRef;
use dr_nested::NoMemory;
use std::alloc::Global;

/// Texts by their places in one buffer.
#[derive(Drop)]
pub struct Texts {
    pub(crate) places: Vec<TextPlace>,
    pub(crate) bytes: Vec<u8>,
    pub ghost texts: { list_all (is_text bytes.items) places.items ≡ true },
}

impl Texts {
    ghost use Rattle.std.specs.Prelude.{◌<◌, ◌≤◌, ◌+◌, ◌++◌, ◌∷◌, [], length, map, take, drop};
    ghost use Rattle.dr_meaning.specs.Record.{text_value};
    ghost use Rattle.dr_levels.specs.Dense.{texts_view, text_values};
    ghost use Rattle.dr_levels.specs.Columns.{Adds, AddsSome};
    ghost use Rattle.dr_levels.specs.Lent.{lent_values, lends_kind};
    ghost use Rattle.dr_meaning.specs.Schema.{text_kind};

    pub fn new(alloc: Global) -> Texts
        ensures { texts_view result ≡ [] }
    {
        Texts {
            places: Vec::new(alloc),
            bytes: Vec::new(alloc),
        }
    }

    /// How many there are.
    #[inline(always)]
    pub fn len(&self) -> usize
        ensures { result ≡ length (texts_view self.now) }
    {
        self.places.len()
    }

    /// The text of this number.
    #[inline(always)]
    pub fn get(&self, number: usize) -> &str
        requires { number < length (texts_view self.now) }
        ensures { drop number (texts_view self.now) ≡ text_value result.now ∷ drop (number + 1) (texts_view self.now) }
    {
        let TextPlace { start, length } = self.places[number];
        let from = start as usize;
        unsafe { str::from_utf8_unchecked(&self.bytes[from..from + length as usize]) }
    }

    /// So many texts from a number on.
    #[inline]
    pub fn range(&self, from: usize, count: usize) -> ValuesRef<'_>
        requires { from + count ≤ length (texts_view self.now) }
        ensures values { lent_values result ≡ take count (drop from (texts_view self.now)) }
        ensures texts { lends_kind text_kind result ≡ true }
    {
        ValuesRef::Texts {
            bytes: &self.bytes,
            places: &self.places[from..from + count],
        }
    }

    /// Appends a text.
    ///
    /// Errors: want of memory, or of room: a buffer has less than 4 GiB.
    #[inline(always)]
    pub fn push(&mut self, text: &str) -> Result<(), NoMemory>
        ensures { Adds (texts_view self.old) (texts_view self.new) (text_value text.now ∷ []) result }
    {
        let (Ok(start), Ok(length)) = (u32::try_from(self.bytes.len()), u32::try_from(text.len()))
        else {
            return Err(NoMemory);
        };
        self.places.reserve(1)?;
        self.bytes.extend_from_slice(text.as_bytes())?;
        self.places.push(TextPlace { start, length })?;
        Ok(())
    }

    /// Appends texts that lie at places of a buffer. The buffer is copied in one piece, or where it is longer than the
    /// texts with a length before each, text by text.
    ///
    /// Errors: want of memory, or of room: a buffer has less than 4 GiB.
    pub fn extend(&mut self, bytes: &[u8], places: &[TextPlace]) -> Result<(), NoMemory>
        requires { list_all (is_text bytes.now) places.now ≡ true }
        ensures { Adds (texts_view self.old) (texts_view self.new) (text_values bytes.now places.now) result }
    {
        if is_longer(bytes.len(), places) {
            self.extend_by_text(bytes, places)
        } else {
            self.extend_whole(bytes, places)
        }
    }

    /// Appends texts that lie at places of a buffer, which is copied in one piece.
    fn extend_whole(&mut self, bytes: &[u8], places: &[TextPlace]) -> Result<(), NoMemory>
        requires { list_all (is_text bytes.now) places.now ≡ true }
        ensures { Adds (texts_view self.old) (texts_view self.new) (text_values bytes.now places.now) result }
    {
        let Ok(behind) = u32::try_from(self.bytes.len()) else {
            return Err(NoMemory);
        };
        self.places.reserve(places.len())?;
        self.bytes.extend_from_slice(bytes)?;
        push_moved(&mut self.places, behind, places)
    }

    /// Appends texts that lie at places of a buffer, each copied by itself.
    fn extend_by_text(&mut self, bytes: &[u8], places: &[TextPlace]) -> Result<(), NoMemory>
        requires { list_all (is_text bytes.now) places.now ≡ true }
        ensures { Adds (texts_view self.old) (texts_view self.new) (text_values bytes.now places.now) result }
    {
        let count = self.len();
        let pushed = self.push_each(bytes, places);
        if pushed.is_err() {
            self.truncate(count);
        }
        pushed
    }

    /// Appends texts that lie at places of a buffer, or the first of them.
    fn push_each(&mut self, bytes: &[u8], places: &[TextPlace]) -> Result<(), NoMemory>
        requires { list_all (is_text bytes.now) places.now ≡ true }
        ensures { AddsSome (texts_view self.old) (texts_view self.new) (text_values bytes.now places.now) result }
    {
        self.places.reserve(places.len())?;
        'places: for place in places {
            let start = place.start as usize;
            let text = &bytes[start..start + place.length as usize];
            self.push(unsafe { str::from_utf8_unchecked(text) })?;
        }
        Ok(())
    }

    /// Drops all texts behind the first so many.
    pub fn truncate(&mut self, count: usize)
        ensures { texts_view self.new ≡ take count (texts_view self.old) }
    {
        self.places.truncate(count);
    }

    /// Drops all texts, and keeps the room.
    pub fn clear(&mut self)
        ensures { texts_view self.new ≡ [] }
    {
        self.places.clear();
        self.bytes.clear();
    }
}

/// Whether a buffer of so many bytes is longer than the texts at places of it, each behind a length of four bytes.
/// Texts that lie over one another may have a length that wraps: then either way of copying them does.
fn is_longer(bytes: usize, places: &[TextPlace]) -> bool {
    let mut length = 0usize;
    'places: for place in places {
        length = length.wrapping_add(place.length as usize + 4);
    }
    bytes > length
}
