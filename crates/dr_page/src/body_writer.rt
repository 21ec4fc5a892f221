//! Writing page bodies.

ghost use Rattle.std.specs.Prelude.{◌≡◌, ◌++◌, ◌≤◌, IfOk, OnOk, OnErr};
ghost use Rattle.dr_levels.specs.Views.{triplets_form};
ghost use Rattle.dr_page.specs.Writes.{Writes, AreWritable, AreLengthsOf, body_of};

use crate::level_lengths::LevelLengths;
use crate::level_writer::LevelWriter;
use crate::shape::PageForm;
use crate::value_writer::append_values;
use dr_levels::Triplets;
use dr_memory::NoMemory;
use std::alloc::Global;

/// Writes bodies of data pages, with a buffer that is used again page after page.
#[derive(Drop)]
pub struct BodyWriter {
    levels: LevelWriter,
}

impl BodyWriter {
    /// A writer with an empty buffer. Takes no memory.
    pub fn new(alloc: Global) -> BodyWriter {
        BodyWriter {
            levels: LevelWriter::new(alloc),
        }
    }

    /// Appends the body of a page of this form that is written for a stretch of a column's triplets, whose leaf has
    /// this greatest repetition level: level parts in hybrid data, values in PLAIN. Answers how long the level parts
    /// are.
    ///
    /// Errors: want of memory alone; the bytes are then as they were.
    pub fn write(
        &mut self,
        form: PageForm,
        triplets: Triplets<'_>,
        max_repetition: u8,
        out: &mut Vec<u8>,
    ) -> Result<LevelLengths, NoMemory>
        requires repetition { max_repetition ≤ 32 }
        requires definition { (triplets_form triplets).greatest ≤ 32 }
        requires writable { AreWritable max_repetition triplets }
        ensures written { OnOk result ((out.new).items
            ≡ (out.old).items ++ body_of form max_repetition triplets.entry) }
        ensures lengths { IfOk result (λ n. AreLengthsOf max_repetition triplets.entry n) }
        ensures stays { OnErr result ((out.new).items ≡ (out.old).items) }
    {
        let start = out.len();
        let written = self.append(form, triplets, max_repetition, out);
        if written.is_err() {
            out.truncate(start);
        }
        written
    }

    /// Appends the body, or some bytes of it.
    fn append(
        &mut self,
        form: PageForm,
        triplets: Triplets<'_>,
        max_repetition: u8,
        out: &mut Vec<u8>,
    ) -> Result<LevelLengths, NoMemory>
        requires repetition { max_repetition ≤ 32 }
        requires definition { (triplets_form triplets).greatest ≤ 32 }
        requires writable { AreWritable max_repetition triplets }
        ensures written { Writes (body_of form max_repetition triplets.entry) (out.old).items (out.new).items result }
        ensures lengths { IfOk result (λ n. AreLengthsOf max_repetition triplets.entry n) }
    {
        let levels = triplets.levels();
        let greatest = triplets.greatest_definition();
        let repetitions = self
            .levels
            .append_repetitions(form, levels, max_repetition, out)?;
        let definitions = self.levels.append_definitions(form, levels, greatest, out)?;
        append_values(triplets.kind(), triplets.values(), out)?;
        Ok(LevelLengths {
            definitions,
            repetitions,
        })
    }
}
