//! What a cutter of lines holds.

ghost use Rattle.std.specs.Prelude.{◌≡◌, ◌≤◌, ◌<◌, ◌^◌, length, vec_capacity};
ghost use Rattle.dr_lines.specs.declared.cutter.LineFault.TheVariants.{ReadFault};

use dr_outside::Failed;

/// Why no line comes: the next one has more than 1,048,576 bytes, or the source failed.
#[derive(Clone, Copy, PartialEq, Eq)]
pub enum LineFault {
    TooLong,
    ReadFault,
}

impl From<Failed> for LineFault {
    ghost from_gives = { λ _ fault. fault ≡ ReadFault };

    fn from(_: Failed) -> LineFault {
        LineFault::ReadFault
    }
}

/// The lines of a source. The bytes read ahead, from `from` to `to` in the buffer, are still to be cut.
#[derive(Drop)]
pub struct Lines {
    pub(crate) buffer: Vec<u8>,
    pub(crate) from: usize,
    pub(crate) to: usize,
    pub(crate) line: Vec<u8>,
    pub(crate) stopped: Option<LineFault>,
    ghost order: { from ≤ to },
    ghost within: { to ≤ length buffer.items },
    ghost room: { 0 < length buffer.items },
    ghost line_room: { 2 ^ 20 ≤ vec_capacity line },
    ghost line_fits: { length line.items ≤ 2 ^ 20 },
}
