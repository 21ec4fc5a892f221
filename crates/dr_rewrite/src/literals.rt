//! Literals.

ghost use Rattle.std.specs.Prelude.{◌≡◌, ◌<◌, ◌++◌, ◌∷◌, decimal, string_bytes, length, IfSome, MatchOption, OnOk};
ghost use Rattle.std.specs.Fmt.{signed_decimal};
ghost use Rattle.dr_meaning.specs.Record.{bool_value};
ghost use Rattle.dr_meaning.specs.TokenLaws.{doubled};
ghost use Rattle.dr_partials.specs.RewritingText as meant;

use itoa::Buffer;
use std::alloc::AllocError;

/// Appends a whole number.
pub(crate) fn push_number(number: i64, out: &mut String) -> Result<(), AllocError>
    ensures { OnOk result (string_bytes out.new ≡ string_bytes out.old ++ signed_decimal number) }
{
    let mut buffer = Buffer::new();
    out.push_str(buffer.format(number))
}

/// Appends a count.
pub(crate) fn push_count(count: usize, out: &mut String) -> Result<(), AllocError>
    ensures { OnOk result (string_bytes out.new ≡ string_bytes out.old ++ decimal count) }
{
    let mut buffer = Buffer::new();
    out.push_str(buffer.format(count))
}

/// Appends TRUE or FALSE.
pub(crate) fn push_truth(truth: bool, out: &mut String) -> Result<(), AllocError>
    ensures { OnOk result (string_bytes out.new ≡ string_bytes out.old ++ meant.literal_text (bool_value truth)) }
{
    out.push_str(if truth { "TRUE" } else { "FALSE" })
}

/// A text before and behind its first single quote, if it has one.
fn cut_at_quote(text: &str) -> Option<(&str, &str)>
    ensures cut { MatchOption result (doubled text.now ≡ text.now) (λ x. doubled text.now
        ≡ x.0.now ++ 39 ∷ 39 ∷ doubled x.1.now) }
    ensures shorter { IfSome result (λ x. length x.1.now < length text.now) }
{
    text.split_once('\'')
}

/// Appends a text in single quotes, with two for each in it.
pub(crate) fn push_text(text: &str, out: &mut String) -> Result<(), AllocError>
    ensures { OnOk result (string_bytes out.new ≡ string_bytes out.old ++ meant.text_literal text.now) }
{
    out.push_str("'")?;
    push_doubled(text, out)?;
    out.push_str("'")
}

/// Appends a text with two single quotes for each in it.
fn push_doubled(text: &str, out: &mut String) -> Result<(), AllocError>
    ensures { OnOk result (string_bytes out.new ≡ string_bytes out.old ++ doubled text.now) }
{
    let mut rest = text;
    'quotes: while let Some((before, behind)) = cut_at_quote(rest) {
        out.push_str(before)?;
        out.push_str("''")?;
        rest = behind;
    }
    out.push_str(rest)
}
