//! Encodings of the format.

ghost use Rattle.std.specs.Prelude.{◌≡◌, IfSome, IfNone};
ghost use Rattle.dr_nested.specs.Views.{kind_view};
ghost use Rattle.dr_formats.specs.Page.{is_number, rle_encoding};
ghost use Rattle.dr_page.specs.Encodings.{encoding_of, IsFor, HasNoValues};

use dr_nested::Kind;

/// Values one after another (PLAIN).
const PLAIN: i64 = 0;
/// Indices of a dictionary's values, as older writers name it (PLAIN_DICTIONARY).
const PLAIN_DICTIONARY: i64 = 2;
/// Hybrid data (RLE).
const RLE: i64 = 3;
/// Indices of a dictionary's values (RLE_DICTIONARY).
const RLE_DICTIONARY: i64 = 8;

/// How the values of a page are encoded.
#[derive(Clone, Copy, PartialEq, Eq)]
pub(crate) enum ValueEncoding {
    Plain,
    /// Indices of the values of the chunk's dictionary.
    Dictionary,
    /// Hybrid data behind its length, which truth values alone have.
    Hybrid,
}

/// The encoding of values with a number of the format; none for any other number.
fn value_encoding(number: i64) -> Option<ValueEncoding>
    ensures { result ≡ encoding_of number }
{
    match number {
        PLAIN => Some(ValueEncoding::Plain),
        PLAIN_DICTIONARY | RLE_DICTIONARY => Some(ValueEncoding::Dictionary),
        RLE => Some(ValueEncoding::Hybrid),
        _ => None,
    }
}

/// The encoding of values of a kind with a number of the format: truth values alone have hybrid data.
pub(crate) fn encoding_for(kind: Kind, number: i64) -> Option<ValueEncoding>
    ensures some { IfSome result (λ e. IsFor e (kind_view kind) number) }
    ensures none { IfNone result (HasNoValues (kind_view kind) number) }
{
    match value_encoding(number) {
        Some(ValueEncoding::Hybrid) => match kind {
            Kind::Bool => Some(ValueEncoding::Hybrid),
            Kind::I32 | Kind::I64 | Kind::Text => None,
        },
        encoding => encoding,
    }
}

/// Whether the number is that of hybrid data.
pub(crate) fn is_hybrid(number: i64) -> bool
    ensures { result ≡ is_number rle_encoding number }
{
    number == RLE
}
