//! Where a chunk lies.

ghost use Rattle.std.specs.Prelude.{◌<◌, ◌^◌};

use dr_chunk::ByteRange;

/// The chunk of a leaf in a row group, as the footer tells it.
#[derive(Clone, Copy)]
pub(crate) struct ChunkPlace {
    /// How many rows its row group has.
    pub(crate) rows: u64,
    /// The byte offset at which it begins.
    pub(crate) start: u64,
    /// How many bytes it has.
    pub(crate) size: u64,
    /// How many triplets it has.
    pub(crate) values: u64,
    ghost start_within: { start < 2 ^ 63 },
    ghost size_within: { size < 2 ^ 63 },
}

impl ChunkPlace {
    ghost use Rattle.std.specs.Prelude.{◌≡◌, true, false, IfSome, IfNone};
    ghost use Rattle.dr_chunk.specs.Ranges.{inside};
    ghost use Rattle.dr_formats.specs.Opening.{range};
    ghost use Rattle.dr_file.specs.Openings.{chunk_place_view};
    ghost use Rattle.dr_file.specs.LeafColumns.{lies_before};

    /// Its bytes, if they lie between the magic and the footer, which begins at this byte offset.
    pub(crate) fn range_before(self, footer: u64) -> Option<ByteRange>
        ensures some { IfSome result (λ r. (lies_before footer (chunk_place_view self) ≡ true)
            × (inside r ≡ range self.start self.size)) }
        ensures none { IfNone result (lies_before footer (chunk_place_view self) ≡ false) }
    {
        if self.start >= 4 && self.start + self.size <= footer {
            Some(ByteRange {
                start: self.start,
                size: self.size,
            })
        } else {
            None
        }
    }
}
