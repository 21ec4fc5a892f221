//! The precedences of operators that join operands, and the operator of a precedence that the next token is.

ghost use Rattle.std.specs.Prelude.{◌≡◌, option_map};
ghost use Rattle.dr_sql.specs.Reads.{unread};
ghost use Rattle.dr_sql.specs.Precedences.{joining_view, next_joining};

use crate::cursor::Cursor;
use crate::expression::{Arithmetic, Comparison};
use crate::operators::next_of_sum;
use crate::word::{Sign, Word};

/// How closely operators bind, the loosest first: OR; AND; `+` and `-`; `*`.
#[derive(Clone, Copy)]
pub enum Precedence {
    Or,
    And,
    Sum,
    Product,
}

/// An operator between two operands.
#[derive(Clone, Copy)]
pub enum Joining {
    Or,
    And,
    Arithmetic(Arithmetic),
    Comparison(Comparison),
}

impl Precedence {
    /// The operator of the precedence that the next token is.
    pub fn next(self, cursor: &Cursor<'_, '_>) -> Option<Joining>
        ensures { option_map joining_view result ≡ next_joining self (unread cursor.now) }
    {
        match self {
            Precedence::Or if cursor.next_is_word(Word::Or) => Some(Joining::Or),
            Precedence::And if cursor.next_is_word(Word::And) => Some(Joining::And),
            Precedence::Sum => match next_of_sum(cursor) {
                Some(sign) => Some(Joining::Arithmetic(sign)),
                None => None,
            },
            Precedence::Product if cursor.next_is_sign(Sign::Star) => {
                Some(Joining::Arithmetic(Arithmetic::Times))
            }
            _ => None,
        }
    }
}
