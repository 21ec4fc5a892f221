//! Queries as their text has them, before names are looked up. Places are byte places in the text; names are lent from
//! it.

use crate::expression::{Expression, Path};

/// COUNT, SUM, MIN, MAX.
#[derive(Clone, Copy, PartialEq, Eq)]
pub enum Aggregate {
    Count,
    Sum,
    Min,
    Max,
}

/// Within what an aggregate runs: RECORD, or the node of a path.
#[derive(Drop)]
pub enum Node<'a> {
    Record,
    Path(Path<'a>),
}

/// WITHIN and its node, with the place of the word.
#[derive(Drop)]
pub struct Within<'a> {
    pub place: usize,
    pub node: Node<'a>,
}

/// What an item gives: an expression; `COUNT(*)`; an aggregate of an expression.
#[derive(Drop)]
pub enum Term<'a> {
    Expression(Box<Expression<'a>>),
    CountRows(Option<Within<'a>>),
    Aggregate(Aggregate, Box<Expression<'a>>, Option<Within<'a>>),
}

/// An item, the name that AS gives it, and the place of its first token: of an aggregate, its word.
#[derive(Drop)]
pub struct Item<'a> {
    pub place: usize,
    pub term: Term<'a>,
    pub name: Option<&'a str>,
}

/// The name behind FROM, and its place.
#[derive(Clone, Copy)]
pub struct Table<'a> {
    pub place: usize,
    pub name: &'a str,
}

/// The condition, and the place of its first token.
#[derive(Drop)]
pub struct Condition<'a> {
    pub place: usize,
    pub expression: Box<Expression<'a>>,
}

/// SELECT items FROM table [WHERE condition] [GROUP BY keys]; without GROUP BY there are no keys.
#[derive(Drop)]
pub struct Query<'a> {
    pub items: Vec<Item<'a>>,
    pub table: Table<'a>,
    pub condition: Option<Condition<'a>>,
    pub keys: Vec<Path<'a>>,
}

/// ORDER BY: a path, and whether DESC stands behind it.
#[derive(Drop)]
pub struct Order<'a> {
    pub path: Path<'a>,
    pub descending: bool,
}

/// A SELECT of a text, with the place of that word, its order and its limit. The table of one that stands over another
/// SELECT is `Result`, at the parenthesis.
#[derive(Drop)]
pub struct Select<'a> {
    pub place: usize,
    pub query: Query<'a>,
    pub order: Option<Order<'a>>,
    pub limit: Option<u64>,
}

/// The SELECT over the table, which is the innermost, and those over one another.
#[derive(Drop)]
pub struct Nested<'a> {
    pub first: Select<'a>,
    pub others: Vec<Select<'a>>,
}
