//! The parts of JSON texts.

ghost use Rattle.std.specs.Prelude.{◌≡◌, ◌++◌, ◌∷◌, [], string_bytes, OnOk};
ghost use Rattle.std.specs.List.{list_all};
ghost use Rattle.json.specs.Print.{quoted};
ghost use Rattle.dr_meaning.specs.Lists.{comma_if};
ghost use Rattle.dr_print.specs.Parts as parts;

use std::alloc::{AllocError, Global};

/// Appends a comma, where something stands before.
///
/// Errors: want of memory alone; the text is then as it was.
#[inline(always)]
pub fn push_comma(text: &mut String, behind: bool) -> Result<(), AllocError>
    ensures { OnOk result (string_bytes text.new ≡ string_bytes text.old ++ comma_if behind) }
{
    match behind {
        true => text.push_str(","),
        false => Ok(()),
    }
}

/// Whether a byte stands in quotes as it is: those below 32, a quote and a backslash are escaped.
#[inline(always)]
fn is_plain(byte: u8) -> bool
    ensures { result ≡ parts.is_plain byte }
{
    byte >= 0x20 && byte != b'"' && byte != b'\\'
}

/// Whether each of some bytes stands in quotes as it is.
#[inline(always)]
fn are_plain(bytes: &[u8]) -> bool
    ensures { result ≡ list_all parts.is_plain bytes.now }
{
    bytes.iter().all(|byte| is_plain(*byte))
}

/// Appends a text between quotes, as it is.
#[inline(always)]
fn push_between_quotes(text: &mut String, value: &str) -> Result<(), AllocError>
    ensures { OnOk result (string_bytes text.new
        ≡ string_bytes text.old ++ 34 ∷ (value.now ++ 34 ∷ [])) }
{
    text.push_str("\"")?;
    text.push_str(value)?;
    text.push_str("\"")
}

/// Appends a text in quotes, some bytes of which may have to be escaped.
fn push_escaped(alloc: Global, text: &mut String, value: &str) -> Result<(), AllocError>
    ensures { OnOk result (string_bytes text.new ≡ string_bytes text.old ++ quoted value.now) }
{
    match serde_json::to_string(alloc, &value) {
        Ok(quote) => text.push_str(quote.as_str()),
        Err(_) => Err(AllocError),
    }
}

/// Appends a text in quotes, as compact JSON has it (RFC 8259, section 7).
#[inline]
pub(crate) fn push_quoted(alloc: Global, text: &mut String, value: &str) -> Result<(), AllocError>
    ensures { OnOk result (string_bytes text.new ≡ string_bytes text.old ++ quoted value.now) }
{
    if are_plain(value.as_bytes()) {
        push_between_quotes(text, value)
    } else {
        push_escaped(alloc, text, value)
    }
}

/// Appends a name in quotes and a colon.
///
/// Errors: want of memory alone; the text may then have a part of them behind what it had.
#[inline(always)]
pub fn push_name(alloc: Global, text: &mut String, name: &str) -> Result<(), AllocError>
    ensures { OnOk result (string_bytes text.new ≡ string_bytes text.old ++ (quoted name.now ++ 58 ∷ [])) }
{
    push_quoted(alloc, text, name)?;
    text.push_str(":")
}
