//! What a reader of records holds.

ghost use Rattle.std.specs.Prelude.{◌≡◌, ◌≤◌, ◌<◌, ◌^◌, None};
ghost use Rattle.dr_lines.specs.Cutting.{fault_of};

use crate::fault::InputFault;
use dr_lines::Lines;
use dr_nested::Schema;
use json::Scratch;
use std::alloc::Global;

/// What a line is read with: the schema of its records, and memory that is used again for each line.
#[derive(Drop)]
pub(crate) struct LineReader<'s> {
    pub(crate) alloc: Global,
    pub(crate) schema: &'s Schema,
    pub(crate) scratch: Scratch,
}

/// A reader of the records of an input, one to a line: records of a schema, of at most so many lines.
#[derive(Drop)]
pub struct Records<'s> {
    pub(crate) reader: LineReader<'s>,
    pub(crate) most: u64,
    pub(crate) lines: Lines,
    pub(crate) number: u64,
    pub(crate) stopped: Option<InputFault>,
    pub ghost few: { most < 2 ^ 63 },
    pub ghost within: { number ≤ most },
    ghost going: { stopped ≡ None → fault_of lines ≡ None },
}
