//! How many bytes values take in PLAIN.

ghost use Rattle.std.specs.Prelude.{◌≡◌, ◌≤◌, ◌+◌, ◌-◌, ◌*◌, ◌/◌, ◌^◌, min, length};
ghost use Rattle.std.specs.List.{sum_by};
ghost use Rattle.dr_formats.specs.Page.{column_values};
ghost use Rattle.dr_formats.specs.Plain.{plain_bytes};
ghost use Rattle.dr_levels.specs.Views.{triplets_view, triplets_form};

use crate::part::LENGTH_BYTES;
use dr_levels::{TextPlace, Triplets, ValuesRef};
use dr_nested::Kind;

/// How many bytes the values of a stretch of triplets take in PLAIN; 2^64 - 1 where they take more. Of whole numbers
/// and truth values none is looked at.
pub fn plain_size(triplets: Triplets<'_>) -> u64
    ensures { result ≡ min (length (plain_bytes (triplets_form triplets.entry).kind
        (column_values (triplets_view triplets.entry)))) (2 ^ 64 - 1) }
{
    match (triplets.kind(), triplets.values()) {
        (Kind::Bool, ValuesRef::Bools(truths)) => truths_size(truths),
        (Kind::I32, ValuesRef::Integers(numbers)) => numbers_size(numbers, 4),
        (Kind::I64, ValuesRef::Integers(numbers)) => numbers_size(numbers, 8),
        (Kind::Text, ValuesRef::Texts { places, .. }) => texts_size(places),
        _ => unreachable!(),
    }
}

/// How many bytes truth values take, one bit each.
fn truths_size(truths: &[bool]) -> u64
    ensures { result ≡ (length truths.now + 7) / 8 }
{
    (truths.len() as u64 + 7) / 8
}

/// How many bytes whole numbers of so many bytes take.
fn numbers_size(numbers: &[i64], bytes: u64) -> u64
    requires { bytes ≤ 8 }
    ensures { result ≡ bytes * length numbers.now }
{
    bytes * numbers.len() as u64
}

/// How many bytes texts take, each behind its length in four bytes; 2^64 - 1 where they take more.
fn texts_size(places: &[TextPlace]) -> u64
    ensures { result ≡ min (sum_by (λ (p : TextPlace). 4 + p.length) places.now) (2 ^ 64 - 1) }
{
    let mut size = 0u64;
    'places: for place in places {
        size = size.saturating_add(LENGTH_BYTES as u64 + u64::from(place.length));
    }
    size
}
