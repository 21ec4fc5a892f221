//! Expressions as a query's text has them, before names are looked up. Places are byte places in the text; names and
//! texts are lent from it.

use crate::numeral::Numeral;

/// The names of a path, joined by dots in the text, and the place of the first.
#[derive(Drop)]
pub struct Path<'a> {
    pub place: usize,
    pub names: Vec<&'a str>,
}

/// `+`, `-`, `*`.
#[derive(Clone, Copy, PartialEq, Eq)]
pub enum Arithmetic {
    Plus,
    Minus,
    Times,
}

/// `=`, `<>`, `<`, `<=`, `>`, `>=`.
#[derive(Clone, Copy, PartialEq, Eq)]
pub enum Comparison {
    Equal,
    Unequal,
    Less,
    AtMost,
    Greater,
    AtLeast,
}

/// An expression. Each operator begins with its place, that of its sign or word. A text keeps `''` for each quote in
/// it. Parentheses leave nothing but the tree's shape.
#[derive(Drop)]
pub enum Expression<'a> {
    Number(Numeral),
    Text(&'a str),
    Truth(bool),
    Path(Path<'a>),
    /// `-e`
    Negative(usize, Box<Expression<'a>>),
    Arithmetic(usize, Arithmetic, Box<Expression<'a>>, Box<Expression<'a>>),
    Comparison(usize, Comparison, Box<Expression<'a>>, Box<Expression<'a>>),
    /// `e LIKE pattern`; `e NOT LIKE pattern` is its negation, at the same place.
    Like(usize, Box<Expression<'a>>, &'a str),
    /// `e CONTAINS part`; `e NOT CONTAINS part` is its negation, at the same place.
    Contains(usize, Box<Expression<'a>>, &'a str),
    /// `e IS NULL`; `e IS NOT NULL` is its negation, at the same place.
    IsNull(usize, Box<Expression<'a>>),
    Not(usize, Box<Expression<'a>>),
    And(usize, Box<Expression<'a>>, Box<Expression<'a>>),
    Or(usize, Box<Expression<'a>>, Box<Expression<'a>>),
}
