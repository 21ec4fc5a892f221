//! Dictionaries.

ghost use Rattle.std.specs.Prelude.{◌≡◌, true};
ghost use Rattle.std.specs.List.{list_all};
ghost use Rattle.dr_levels.specs.Texts.{is_text};

use crate::fault::PageFault;
use crate::text_places::read_places;
use dr_levels::TextPlace;
use dr_nested::Kind;
use dr_plain::{Values, read_plain};
use std::alloc::Global;

/// Texts of a dictionary, by their places in its page's bytes.
#[derive(Drop)]
pub(crate) struct Texts {
    pub(crate) bytes: Vec<u8>,
    pub(crate) places: Vec<TextPlace>,
    ghost texts: { list_all (is_text bytes.items) places.items ≡ true },
}

/// The values of a dictionary, in one vector of their kind.
#[derive(Drop)]
pub(crate) enum Entries {
    Bools(Vec<bool>),
    Integers(Vec<i64>),
    Texts(Texts),
}

/// The values of a chunk's dictionary, to which its pages refer by their places (Apache Parquet, "Dictionary
/// Encoding").
#[derive(Drop)]
pub struct Dictionary {
    pub(crate) entries: Entries,
}

impl Dictionary {
    ghost use Rattle.std.specs.Prelude.{[], map, IfOk, IfErr};
    ghost use Rattle.dr_meaning.specs.Record.{bool_value, int_value};
    ghost use Rattle.dr_meaning.specs.Schema as tree;
    ghost use Rattle.dr_levels.specs.Dense.{text_values};
    ghost use Rattle.dr_nested.specs.Views.{kind_view};
    ghost use Rattle.dr_formats.specs.Plain.{plain_values};
    ghost use Rattle.dr_page.specs.Views.{dictionary_view, is_dictionary_of};
    ghost use Rattle.dr_page.specs.Reads.{WhereNone};

    /// A dictionary of a kind without values: that of a chunk without a dictionary page.
    pub fn none(alloc: Global, kind: Kind) -> Dictionary
        ensures empty { dictionary_view result ≡ [] }
        ensures kind { is_dictionary_of (kind_view kind) result ≡ true }
    {
        let entries = match kind {
            Kind::Bool => Entries::Bools(Vec::new(alloc)),
            Kind::I32 | Kind::I64 => Entries::Integers(Vec::new(alloc)),
            Kind::Text => Entries::Texts(Texts {
                bytes: Vec::new(alloc),
                places: Vec::new(alloc),
            }),
        };
        Dictionary { entries }
    }

    /// The dictionary of so many values of a kind that the body of a dictionary page spells, in PLAIN. It keeps the
    /// body.
    ///
    /// Errors: the body begins with no such values; want of memory.
    pub fn read(
        alloc: Global,
        kind: Kind,
        count: u64,
        body: Vec<u8>,
    ) -> Result<Dictionary, PageFault>
        ensures read { IfOk result (λ d. plain_values (kind_view kind) count body.items ≡ Some (dictionary_view d)) }
        ensures bad { IfErr result (λ e. WhereNone e (plain_values (kind_view kind) count body.items)) }
        ensures kind { IfOk result (λ d. is_dictionary_of (kind_view kind) d ≡ true) }
    {
        let entries = match read_plain(alloc, kind, count as usize, &body)? {
            Values::Bools(bools) => Entries::Bools(bools),
            Values::Integers(integers) => Entries::Integers(integers),
            Values::Texts(texts) => {
                let mut places = Vec::new(alloc);
                read_places(&texts, &mut places)?;
                Entries::Texts(Texts {
                    bytes: body,
                    places,
                })
            }
        };
        Ok(Dictionary { entries })
    }

    /// The truth values of a dictionary that has them.
    pub(crate) fn bools(&self) -> &[bool]
        requires { is_dictionary_of tree.bool_kind self.now ≡ true }
        ensures { map bool_value result.now ≡ dictionary_view self.now }
    {
        match &self.entries {
            Entries::Bools(bools) => bools,
            _ => unreachable!(),
        }
    }

    /// The whole numbers of a dictionary that has them.
    pub(crate) fn integers(&self) -> &[i64]
        requires { is_dictionary_of tree.int64_kind self.now ≡ true }
        ensures { map int_value result.now ≡ dictionary_view self.now }
    {
        match &self.entries {
            Entries::Integers(integers) => integers,
            _ => unreachable!(),
        }
    }

    /// The texts of a dictionary that has them.
    pub(crate) fn texts(&self) -> &Texts
        requires { is_dictionary_of tree.text_kind self.now ≡ true }
        ensures { text_values (result.now).bytes.items (result.now).places.items ≡ dictionary_view self.now }
    {
        match &self.entries {
            Entries::Texts(texts) => texts,
            _ => unreachable!(),
        }
    }
}
