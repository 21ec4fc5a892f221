//! Where the pages of a column are cut.

ghost use Rattle.std.specs.Prelude.{◌≡◌, ◌<◌, ◌≤◌, ◌^◌, ◌+◌, ◌∷◌, [], length, map, take, drop, option_map};
ghost use Rattle.dr_meaning.specs.Schema as tree;
ghost use Rattle.dr_formats.specs.Plain.{plain_bytes};
ghost use Rattle.dr_formats.specs.Page.{with_value};
ghost use Rattle.dr_levels.specs.Views.{lent_value, triplets_view, triplets_form};
ghost use Rattle.dr_write.specs.Cutting.{record_end, IsEnough};
ghost use Rattle.dr_write.specs.Chunks.{pages_for};

use dr_levels::{Levels, Triplets, ValueRef};
use dr_nested::Kind;

/// The triplets with which a page is full.
const ENOUGH_TRIPLETS: usize = 4096;

/// The bytes of PLAIN values with which a page is full.
const ENOUGH_BYTES: u64 = 1 << 20;

/// The bytes of the length before a text.
const LENGTH_BYTES: u64 = 4;

/// How many triplets the first page has, of the pages into which these triplets are cut: it closes at the first
/// record's end at which it is full, and at the last.
pub(crate) fn page_length(triplets: Triplets<'_>) -> usize
    requires { 0 < length (triplets_view triplets) }
    ensures page { pages_for triplets.entry (triplets_view triplets.entry)
        ≡ take result (triplets_view triplets.entry)
        ∷ pages_for triplets.entry (drop result (triplets_view triplets.entry)) }
    ensures some { 0 < result }
    ensures within { result ≤ length (triplets_view triplets.entry) }
{
    record_end(triplets.levels(), enough(triplets))
}

/// The place of the first record's end that has so many triplets before it, or the place behind the last.
fn record_end(levels: &[Levels], least: usize) -> usize
    ensures { result ≡ record_end (map (λ (l : Levels). l.repetition) levels.now) least }
{
    'levels: for place in least..levels.len() {
        if levels[place].repetition == 0 {
            return place;
        }
    }
    levels.len()
}

/// With how many of the first of these triplets a page is full. Without texts 4,096 come before 1,048,576 bytes.
fn enough(triplets: Triplets<'_>) -> usize
    ensures full { IsEnough (triplets_form triplets.entry).kind (triplets_view triplets.entry) result }
    ensures some { 0 < result }
{
    match triplets.kind() {
        Kind::Text => enough_texts(triplets),
        Kind::Bool | Kind::I32 | Kind::I64 => ENOUGH_TRIPLETS,
    }
}

/// The same of texts: the size of their values is counted triplet by triplet.
fn enough_texts(triplets: Triplets<'_>) -> usize
    ensures full { IsEnough tree.text_kind (triplets_view triplets.entry) result }
    ensures some { 0 < result }
{
    let mut rest = triplets;
    let mut size = 0;
    'triplets: for count in 0..ENOUGH_TRIPLETS {
        if size >= ENOUGH_BYTES {
            return count;
        }
        match rest.next() {
            Some(triplet) => size += text_size(triplet.value),
            None => return ENOUGH_TRIPLETS,
        }
    }
    ENOUGH_TRIPLETS
}

/// How many bytes a text takes in PLAIN, if there is one.
fn text_size(value: Option<ValueRef<'_>>) -> u64
    ensures size { result ≡ length (plain_bytes tree.text_kind (with_value (option_map lent_value value.entry) [])) }
    ensures little { result < 2 ^ 63 + 4 }
{
    match value {
        Some(ValueRef::Text(text)) => LENGTH_BYTES + text.len() as u64,
        _ => 0,
    }
}
