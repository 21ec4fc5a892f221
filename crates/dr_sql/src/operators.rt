//! The operators that the next token may be.

ghost use Rattle.std.specs.Prelude.{◌≡◌, ℕ, option_map, option_and_then};
ghost use Rattle.dr_meaning.specs.Parse as parse;
ghost use Rattle.dr_meaning.specs.Syntax as syntax;
ghost use Rattle.dr_sql.specs.Reads.{unread};
ghost use Rattle.dr_sql.specs.Views.{arithmetic_view, comparison_view};

use crate::cursor::Cursor;
use crate::expression::{Arithmetic, Comparison};
use crate::token::Token;
use crate::word::Sign;

/// The comparison that the next token is.
pub fn next_comparison(cursor: &Cursor<'_, '_>) -> Option<Comparison>
    ensures { option_map comparison_view result
        ≡ option_and_then parse.comparison_in (parse.first_token (unread cursor.now).tokens) }
{
    match cursor.next() {
        Some(Token::Sign(Sign::Equal)) => Some(Comparison::Equal),
        Some(Token::Sign(Sign::Differ)) => Some(Comparison::Unequal),
        Some(Token::Sign(Sign::Less)) => Some(Comparison::Less),
        Some(Token::Sign(Sign::LessOrEqual)) => Some(Comparison::AtMost),
        Some(Token::Sign(Sign::Greater)) => Some(Comparison::Greater),
        Some(Token::Sign(Sign::GreaterOrEqual)) => Some(Comparison::AtLeast),
        _ => None,
    }
}

/// The sign of a sum that the next token is.
pub fn next_of_sum(cursor: &Cursor<'_, '_>) -> Option<Arithmetic>
    ensures { option_map (λ o (i : ℕ). syntax.arithmetic i (arithmetic_view o)) result
        ≡ option_and_then parse.sum_in (parse.first_token (unread cursor.now).tokens) }
{
    match cursor.next() {
        Some(Token::Sign(Sign::Plus)) => Some(Arithmetic::Plus),
        Some(Token::Sign(Sign::Minus)) => Some(Arithmetic::Minus),
        _ => None,
    }
}
