//! Tokens of a query's text.

use crate::numeral::Numeral;
use crate::word::{Sign, Word};

/// A token. Names and texts are lent from the query's text.
#[derive(Clone, Copy)]
pub enum Token<'a> {
    Word(Word),
    /// A name, bare or in double quotes, without these.
    Name(&'a str),
    Number(Numeral),
    /// What stands between single quotes, with `''` for a quote.
    Text(&'a str),
    Sign(Sign),
    /// What begins no token, an unclosed quote, a number past 9223372036854775807.
    Bad,
}

/// A token and the byte place at which it begins.
#[derive(Clone, Copy)]
pub struct PlacedToken<'a> {
    pub place: usize,
    pub token: Token<'a>,
}
