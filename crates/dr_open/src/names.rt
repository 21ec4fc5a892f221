//! Names of fields.

ghost use Rattle.std.specs.Prelude.{◌≡◌, IfSome};
ghost use Rattle.std.specs.Option.{is_some};
ghost use Rattle.std.specs.List.{list_all};
ghost use Rattle.dr_meaning.specs.Schema as tree;

use dr_nested::LONGEST_NAME;

fn begins_name(byte: u8) -> bool
    ensures { result ≡ tree.begins_name byte }
{
    matches!(byte, b'A'..=b'Z' | b'a'..=b'z' | b'_')
}

fn continues_name(byte: u8) -> bool
    ensures { result ≡ tree.continues_name byte }
{
    begins_name(byte) || byte.is_ascii_digit()
}

fn all_continue(bytes: &[u8]) -> bool
    ensures { result ≡ list_all tree.continues_name bytes.now }
{
    bytes.iter().all(|byte| continues_name(*byte))
}

/// Whether bytes are a letter or `_` and then letters, digits and `_`.
fn is_name(bytes: &[u8]) -> bool
    ensures { result ≡ tree.is_name bytes.now }
{
    match bytes.split_first() {
        Some((first, rest)) => begins_name(*first) && all_continue(rest),
        None => false,
    }
}

/// Whether bytes are a name of at most 64 bytes.
pub(crate) fn is_short_name(bytes: &[u8]) -> bool
    ensures { result ≡ tree.is_short_name bytes.now }
{
    is_name(bytes) && bytes.len() <= LONGEST_NAME
}

/// A name of at most 64 bytes, as a text.
pub(crate) fn short_name(bytes: &[u8]) -> Option<&str>
    ensures variant { is_some result ≡ tree.is_short_name bytes.now }
    ensures text { IfSome result (λ name. name.now ≡ bytes.now) }
{
    if is_short_name(bytes) {
        str::from_utf8(bytes).ok()
    } else {
        None
    }
}
