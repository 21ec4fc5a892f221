//! Ranges of the bytes of a file.

ghost use Rattle.std.specs.Prelude.{◌≡◌, ◌+◌, ◌<◌, ◌^◌};

/// So many bytes of a file, from a byte offset on. It ends below 2^64.
#[derive(Clone, Copy)]
pub struct ByteRange {
    pub start: u64,
    pub size: u64,
    pub ghost within: { start + size < 2 ^ 64 },
}

impl ByteRange {
    /// The byte offset behind its last byte.
    pub fn end(self) -> u64
        ensures { result ≡ self.start + self.size }
    {
        self.start + self.size
    }
}
