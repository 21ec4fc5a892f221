//! Column chunks.

ghost use Rattle.std.specs.Prelude.{◌≡◌, ◌≤◌, ◌<◌, ◌+◌, ◌∷◌, [], Some, None, Ok, Err, IfOk, OnOk, OnErr};
ghost use Rattle.dr_formats.specs.Chunk.{pages_triplets};
ghost use Rattle.dr_levels.specs.Views.{column_view, column_form};
ghost use Rattle.dr_page.specs.PageReading.{Lengthens};
ghost use Rattle.dr_outside.specs.Telling.{AsksOnly};
ghost use Rattle.dr_outside.specs.Leaving.{LeavesLink, ServesUntil};
ghost use Rattle.dr_chunk.specs.Ranges.{is_read_inside, inside};
ghost use Rattle.dr_chunk.specs.Taking.{range_of, left_of, reader_form, chunk_of, refused_of, fault_of, TakesMore, OverTold};
ghost use Rattle.dr_chunk.specs.declared.fault.ChunkFault.{ChunkFault};

use dr_chunk::{ChunkFault, ChunkReader};
use dr_levels::Column;
use dr_outside::Link;
use std::alloc::Global;

/// As `ChunkReader::next`.
pub fn next_of_chunk<L: Link>(
    reader: &mut ChunkReader,
    alloc: Global,
    link: &mut L,
    path: &str,
    most: usize,
    out: &mut Column,
) -> Result<usize, ChunkFault>
    requires form { column_form out.old ≡ reader_form reader.old }
    requires some { 0 < most }
    ensures takes { OverTold (L.shows link.old) path.now reader.old (λ l wanted bytes given.
        OnOk result (TakesMore l wanted bytes given (column_view out.old) (column_view out.new) reader.new)) }
    ensures bad { OverTold (L.shows link.old) path.now reader.old (λ l wanted bytes given.
        result ≡ Err ChunkFault.BadData
        → pages_triplets l wanted (chunk_of bytes (range_of reader.old)) ≡ None) }
    ensures longer { IfOk result (λ n. Lengthens (column_view out.old) (column_view out.new) n) }
    ensures left { IfOk result (λ n. n + left_of reader.new ≡ left_of reader.old) }
    ensures most { IfOk result (λ n. n ≤ most) }
    ensures none { result ≡ Ok 0 → left_of reader.old ≡ 0 }
    ensures stays { OnErr result (column_view out.new ≡ column_view out.old) }
    ensures over { OnErr result (left_of reader.new ≡ 0) }
    ensures form { column_form out.new ≡ column_form out.old }
    ensures reader_form { reader_form reader.new ≡ reader_form reader.old }
    ensures range { range_of reader.new ≡ range_of reader.old }
    ensures link { refused_of reader.old ≡ None
        → LeavesLink result ChunkFault.Failed (ServesUntil (L.shows link.old) path.now
        ((range_of reader.old).start + (range_of reader.old).size)) (L.shows link.old) (L.shows link.new) }
    ensures asked { AsksOnly (is_read_inside path.now (inside (range_of reader.old) ∷ [])) (L.shows link.old).asked
        (L.shows link.new).asked }
    // A refusal is one from then on.
    ensures refused { refused_of reader.new ≡ fault_of result }
    ensures again { (e : ChunkFault) → refused_of reader.old ≡ Some e → (result ≡ Err e)
        × (L.shows link.new ≡ L.shows link.old) }
{
    reader.next(alloc, link, path, most, out)
}
