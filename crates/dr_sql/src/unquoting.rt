//! The texts that single quotes write.

ghost use Rattle.std.specs.Prelude.{◌≡◌, ◌≤◌, ◌<◌, ◌++◌, ◌∷◌, true, length, string_bytes, IfOk, IfSome, MatchOption};
ghost use Rattle.dr_sql.specs.TokenViews.{undoubled, undoubled_from};

use dr_memory::NoMemory;
use std::alloc::Global;

/// A text before and behind its first single quote, if it has one.
fn cut_at_quote(text: &str) -> Option<(&str, &str)>
    ensures cut { MatchOption result (undoubled text.now ≡ text.now) (λ x. undoubled text.now
        ≡ x.0.now ++ 39 ∷ undoubled_from true x.1.now) }
    ensures shorter { IfSome result (λ x. length x.1.now < length text.now) }
{
    text.split_once('\'')
}

/// What stands behind a quote, without the quote that doubles it.
fn behind_double(text: &str) -> &str
    ensures rest { undoubled result.now ≡ undoubled_from true text.now }
    ensures within { length result.now ≤ length text.now }
{
    match text.strip_prefix('\'') {
        Some(rest) => rest,
        None => text,
    }
}

/// The text that stands between single quotes, with one quote for each two.
///
/// Errors: want of memory alone.
pub fn unquoted(alloc: Global, quoted: &str) -> Result<String, NoMemory>
    ensures { IfOk result (λ s. string_bytes s ≡ undoubled quoted.now) }
{
    let mut text = String::new(alloc);
    let mut rest = quoted;
    'quotes: while let Some((before, behind)) = cut_at_quote(rest) {
        text.push_str(before)?;
        text.push('\'')?;
        rest = behind_double(behind);
    }
    text.push_str(rest)?;
    Ok(text)
}
