//! Level parts of page bodies, written.

ghost use Rattle.std.specs.Prelude.{◌≡◌, ◌<◌, ◌≤◌, ◌^◌, length, map, true, nat_le, IfOk};
ghost use Rattle.std.specs.List.{list_all};
ghost use Rattle.dr_formats.specs.Page.{data_page_v1, data_page_v2, level_bytes, level_data};
ghost use Rattle.dr_page.specs.Views.{page_form_view};
ghost use Rattle.dr_page.specs.Writes.{Writes};

use crate::level_part::level_width;
use crate::part::LENGTH_BYTES;
use crate::shape::PageForm;
use dr_hybrid::encode;
use dr_levels::Levels;
use dr_memory::NoMemory;
use std::alloc::Global;

/// Writes level parts, with a buffer that is used again page after page.
#[derive(Drop)]
pub(crate) struct LevelWriter {
    levels: Vec<u8>,
}

impl LevelWriter {
    /// A writer with an empty buffer.
    pub(crate) fn new(alloc: Global) -> LevelWriter {
        LevelWriter {
            levels: Vec::new(alloc),
        }
    }

    /// Appends the part of the repetition levels, and answers how many bytes of hybrid data it has; none where the
    /// greatest is 0.
    pub(crate) fn append_repetitions(
        &mut self,
        form: PageForm,
        levels: &[Levels],
        greatest: u8,
        out: &mut Vec<u8>,
    ) -> Result<usize, NoMemory>
        requires narrow { greatest ≤ 32 }
        requires most { list_all (λ l. nat_le l greatest) (map (λ (l : Levels). l.repetition) levels.now) ≡ true }
        ensures written { Writes (level_bytes (page_form_view form) greatest (map (λ (l : Levels). l.repetition)
            levels.now))
            (out.old).items (out.new).items result }
        ensures length { IfOk result (λ n. n
            ≡ length (level_data greatest (map (λ (l : Levels). l.repetition) levels.now))) }
    {
        if greatest == 0 {
            return Ok(0);
        }
        self.levels.resize(levels.len(), 0)?;
        fill_repetitions(levels, &mut self.levels);
        append_part(form, greatest, &self.levels, out)
    }

    /// Appends the part of the definition levels, and answers how many bytes of hybrid data it has; none where the
    /// greatest is 0.
    pub(crate) fn append_definitions(
        &mut self,
        form: PageForm,
        levels: &[Levels],
        greatest: u8,
        out: &mut Vec<u8>,
    ) -> Result<usize, NoMemory>
        requires narrow { greatest ≤ 32 }
        requires most { list_all (λ l. nat_le l greatest) (map (λ (l : Levels). l.definition) levels.now) ≡ true }
        ensures written { Writes (level_bytes (page_form_view form) greatest (map (λ (l : Levels). l.definition)
            levels.now))
            (out.old).items (out.new).items result }
        ensures length { IfOk result (λ n. n
            ≡ length (level_data greatest (map (λ (l : Levels). l.definition) levels.now))) }
    {
        if greatest == 0 {
            return Ok(0);
        }
        self.levels.resize(levels.len(), 0)?;
        fill_definitions(levels, &mut self.levels);
        append_part(form, greatest, &self.levels, out)
    }
}

/// Appends the part of levels, and answers how many bytes of hybrid data it has: in a V1 page its length comes before
/// it.
fn append_part(
    form: PageForm,
    greatest: u8,
    levels: &[u8],
    out: &mut Vec<u8>,
) -> Result<usize, NoMemory>
    requires some { 0 < greatest }
    requires narrow { greatest ≤ 32 }
    requires most { list_all (λ l. nat_le l greatest) levels.now ≡ true }
    requires few { length levels.now < 2 ^ 63 }
    ensures written { Writes (level_bytes (page_form_view form) greatest levels.now) (out.old).items (out.new).items
        result }
    ensures length { IfOk result (λ n. n ≡ length (level_data greatest levels.now)) }
{
    match form {
        PageForm::V1 => append_behind_length(greatest, levels, out),
        PageForm::V2 => append_data(greatest, levels, out),
    }
}

/// The part of a V1 page: its length in four bytes, and hybrid data.
fn append_behind_length(greatest: u8, levels: &[u8], out: &mut Vec<u8>) -> Result<usize, NoMemory>
    requires some { 0 < greatest }
    requires narrow { greatest ≤ 32 }
    requires most { list_all (λ l. nat_le l greatest) levels.now ≡ true }
    requires few { length levels.now < 2 ^ 63 }
    ensures written { Writes (level_bytes data_page_v1 greatest levels.now) (out.old).items (out.new).items result }
    ensures length { IfOk result (λ n. n ≡ length (level_data greatest levels.now)) }
{
    let start = out.len();
    let end = start + LENGTH_BYTES;
    out.extend_from_slice(&[0; LENGTH_BYTES])?;
    let length = append_data(greatest, levels, out)?;
    out[start..end].copy_from_slice(&(length as u64).to_le_bytes()[..LENGTH_BYTES]);
    Ok(length)
}

/// The part of a V2 page: hybrid data.
fn append_data(greatest: u8, levels: &[u8], out: &mut Vec<u8>) -> Result<usize, NoMemory>
    requires some { 0 < greatest }
    requires narrow { greatest ≤ 32 }
    requires most { list_all (λ l. nat_le l greatest) levels.now ≡ true }
    requires few { length levels.now < 2 ^ 63 }
    ensures written { Writes (level_bytes data_page_v2 greatest levels.now) (out.old).items (out.new).items result }
    ensures length { IfOk result (λ n. n ≡ length (level_data greatest levels.now)) }
{
    let start = out.len();
    encode(levels, level_width(greatest), out)?;
    Ok(out.len() - start)
}

/// Puts repetition levels into the place of others, as many.
fn fill_repetitions(levels: &[Levels], out: &mut [u8])
    requires { length out.old ≡ length levels.now }
    ensures { out.new ≡ map (λ (l : Levels). l.repetition) levels.now }
{
    'levels: for index in 0..out.len() {
        out[index] = levels[index].repetition;
    }
}

/// Puts definition levels into the place of others, as many.
fn fill_definitions(levels: &[Levels], out: &mut [u8])
    requires { length out.old ≡ length levels.now }
    ensures { out.new ≡ map (λ (l : Levels). l.definition) levels.now }
{
    'levels: for index in 0..out.len() {
        out[index] = levels[index].definition;
    }
}
