//! What a source of the lines of made records holds.

ghost use Rattle.std.specs.Prelude.{◌≤◌, ◌^◌, ◌+◌, length, vec_capacity};

/// The lines of made records, one after another: a source that tells its bytes and never fails. After it is made it
/// takes no memory.
#[derive(Drop)]
pub struct GenSource {
    // The number of the next record, and how many are still to be made.
    pub(crate) next: u64,
    pub(crate) records: u64,
    // The line that was made last; what is in front of `from` was read.
    pub(crate) line: Vec<u8>,
    pub(crate) from: usize,
    ghost small: { next + records ≤ 2 ^ 32 },
    ghost room: { 1024 ≤ vec_capacity line },
    ghost within: { from ≤ length line.items },
}
