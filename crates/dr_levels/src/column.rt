//! Columns.

ghost use Rattle.std.specs.Prelude.{◌≡◌, length, true};
ghost use Rattle.dr_nested.specs.Views.{kind_view};
ghost use Rattle.dr_levels.specs.Dense.{holds_kind, values_view, present};

use crate::joining::{append_levels, count_present, join_levels, repeat_levels};
use crate::text_place::TextPlace;
use crate::triplet::{Levels, Triplet};
use crate::triplets::Triplets;
use crate::values::Values;
use dr_nested::{Kind, NoMemory};
use std::alloc::Global;

/// The triplets of one leaf, in the order of the records: their levels, and beside them the values that are there, in
/// one vector of the leaf's kind. A value is there exactly where the definition level is the leaf's greatest.
#[derive(Drop)]
pub struct Column {
    pub(crate) kind: Kind,
    pub(crate) greatest: u8,
    pub(crate) levels: Vec<Levels>,
    pub(crate) values: Values,
    pub ghost kinds: { holds_kind (kind_view kind) values ≡ true },
    pub ghost dense: { present greatest levels.items ≡ length (values_view values) },
}

impl Column {
    ghost use Rattle.std.specs.Prelude.{◌≢◌, ◌==◌, ◌∷◌, [], map, take, replicate, None};
    ghost use Rattle.std.specs.List.{list_all};
    ghost use Rattle.dr_meaning.specs.Record.{bool_value, int_value};
    ghost use Rattle.dr_meaning.specs.Schema as tree;
    ghost use Rattle.dr_meaning.specs.Column.{triplet};
    ghost use Rattle.dr_levels.specs.Texts.{is_text};
    ghost use Rattle.dr_levels.specs.Dense.{is_integer_kind, joined, text_values};
    ghost use Rattle.dr_levels.specs.Views.{triplet_view, column_view, column_form, form, triplets_view, triplets_form};
    ghost use Rattle.dr_levels.specs.Columns.{Adds, takes};

    /// A column without triplets, for a leaf of a kind with this greatest definition level.
    pub fn new(alloc: Global, kind: Kind, greatest: u8) -> Column
        ensures empty { column_view result ≡ [] }
        ensures form { column_form result ≡ form (kind_view kind) greatest }
    {
        Column {
            kind,
            greatest,
            levels: Vec::new(alloc),
            values: Values::new(alloc, kind),
        }
    }

    /// How many triplets it has.
    #[tactic(auto, using(crate::proofs::DenseLemmas::joined_length))]
    #[inline(always)]
    pub fn len(&self) -> usize
        ensures { result ≡ length (column_view self.now) }
    {
        self.levels.len()
    }

    /// Whether it has no triplets.
    #[tactic(auto, using(crate::proofs::DenseLemmas::joined_length))]
    #[inline(always)]
    pub fn is_empty(&self) -> bool
        ensures { result ≡ (length (column_view self.now) == 0) }
    {
        self.levels.is_empty()
    }

    /// The kind of its leaf's values.
    #[inline(always)]
    pub fn kind(&self) -> Kind
        ensures { kind_view result ≡ (column_form self.now).kind }
    {
        self.kind
    }

    /// Its leaf's greatest definition level.
    #[inline(always)]
    pub fn greatest_definition(&self) -> u8
        ensures { result ≡ (column_form self.now).greatest }
    {
        self.greatest
    }

    /// A cursor before its first triplet.
    #[inline(always)]
    pub fn triplets(&self) -> Triplets<'_>
        ensures triplets { triplets_view result ≡ column_view self.now }
        ensures form { triplets_form result ≡ column_form self.now }
    {
        Triplets {
            column: self,
            levels: self.levels.as_slice(),
            value: 0,
            count: self.values.len(),
        }
    }

    /// Appends a triplet of the leaf.
    ///
    /// Errors: want of memory, or of room: a column's texts have less than 4 GiB together. Nothing has changed then.
    #[inline]
    pub fn push(&mut self, triplet: Triplet<'_>) -> Result<(), NoMemory>
        requires { takes (column_form self.old) (triplet_view triplet) ≡ true }
        ensures triplet { Adds (column_view self.old) (column_view self.new) (triplet_view triplet.entry ∷ []) result }
        ensures form { column_form self.new ≡ column_form self.old }
    {
        self.levels.reserve(1)?;
        self.values.push(self.kind, triplet.value)?;
        let levels = Levels {
            repetition: triplet.repetition,
            definition: triplet.definition,
        };
        self.levels.push_reserved(levels);
        Ok(())
    }

    /// Appends so many NULLs of the same levels.
    ///
    /// Errors: want of memory alone. Nothing has changed then.
    pub fn push_nulls(&mut self, levels: Levels, count: usize) -> Result<(), NoMemory>
        requires { levels.definition ≢ (column_form self.old).greatest }
        ensures triplets { Adds (column_view self.old) (column_view self.new)
            (replicate count (triplet levels.repetition levels.definition None)) result }
        ensures form { column_form self.new ≡ column_form self.old }
    {
        repeat_levels(&mut self.levels, levels, count)
    }

    /// Appends NULLs of these levels.
    ///
    /// Errors: want of memory alone. Nothing has changed then.
    pub fn extend_nulls(&mut self, levels: &[Levels]) -> Result<(), NoMemory>
        requires { present (column_form self.old).greatest levels.now ≡ 0 }
        ensures triplets { Adds (column_view self.old) (column_view self.new)
            (joined (column_form self.old).greatest levels.now []) result }
        ensures form { column_form self.new ≡ column_form self.old }
    {
        append_levels(&mut self.levels, levels)
    }

    /// Nothing but NULLs of these levels, of its leaf.
    #[inline(always)]
    pub fn lent_nulls<'l>(&'l self, levels: &'l [Levels]) -> Triplets<'l>
        requires { present (column_form self.now).greatest levels.now ≡ 0 }
        ensures triplets { triplets_view result ≡ joined (column_form self.now).greatest levels.now [] }
        ensures form { triplets_form result ≡ column_form self.now }
    {
        Triplets {
            column: self,
            levels,
            value: self.values.len(),
            count: 0,
        }
    }

    /// Appends triplets of these levels, with these truth values at the places that have a value.
    ///
    /// Errors: want of memory alone. Nothing has changed then.
    pub fn extend_bools(&mut self, levels: &[Levels], values: &[bool]) -> Result<(), NoMemory>
        requires kind { (column_form self.old).kind ≡ tree.bool_kind }
        requires as_many { present (column_form self.old).greatest levels.now ≡ length values.now }
        ensures triplets { Adds (column_view self.old) (column_view self.new)
            (joined (column_form self.old).greatest levels.now (map bool_value values.now)) result }
        ensures form { column_form self.new ≡ column_form self.old }
    {
        self.levels.reserve(levels.len())?;
        self.values.extend_bools(values)?;
        join_levels(&mut self.levels, levels);
        Ok(())
    }

    /// Appends triplets of these levels, with these whole numbers at the places that have a value.
    ///
    /// Errors: want of memory alone. Nothing has changed then.
    pub fn extend_integers(&mut self, levels: &[Levels], values: &[i64]) -> Result<(), NoMemory>
        requires kind { is_integer_kind (column_form self.old).kind ≡ true }
        requires as_many { present (column_form self.old).greatest levels.now ≡ length values.now }
        ensures triplets { Adds (column_view self.old) (column_view self.new)
            (joined (column_form self.old).greatest levels.now (map int_value values.now)) result }
        ensures form { column_form self.new ≡ column_form self.old }
    {
        self.levels.reserve(levels.len())?;
        self.values.extend_integers(values)?;
        join_levels(&mut self.levels, levels);
        Ok(())
    }

    /// Appends triplets of these levels, with the texts at these places of a buffer at the places that have a value.
    /// The buffer is copied in one piece, or where it is longer than the texts with a length before each, text by text.
    ///
    /// Errors: want of memory, or of room: a column's texts have less than 4 GiB together. Nothing has changed then.
    pub fn extend_texts(
        &mut self,
        levels: &[Levels],
        bytes: &[u8],
        places: &[TextPlace],
    ) -> Result<(), NoMemory>
        requires kind { (column_form self.old).kind ≡ tree.text_kind }
        requires texts { list_all (is_text bytes.now) places.now ≡ true }
        requires as_many { present (column_form self.old).greatest levels.now ≡ length places.now }
        ensures triplets { Adds (column_view self.old) (column_view self.new)
            (joined (column_form self.old).greatest levels.now (text_values bytes.now places.now)) result }
        ensures form { column_form self.new ≡ column_form self.old }
    {
        self.levels.reserve(levels.len())?;
        self.values.extend_texts(bytes, places)?;
        join_levels(&mut self.levels, levels);
        Ok(())
    }

    /// Drops all triplets behind the first so many.
    pub fn truncate(&mut self, length: usize)
        ensures triplets { column_view self.new ≡ take length (column_view self.old) }
        ensures form { column_form self.new ≡ column_form self.old }
    {
        if length >= self.levels.len() {
            return;
        }
        let kept = self.values.len() - count_present(self.greatest, &self.levels[length..]);
        self.levels.truncate(length);
        self.values.truncate(kept);
    }

    /// Drops all triplets, and keeps the room.
    pub fn clear(&mut self)
        ensures empty { column_view self.new ≡ [] }
        ensures form { column_form self.new ≡ column_form self.old }
    {
        self.levels.clear();
        self.values.clear();
    }
}
