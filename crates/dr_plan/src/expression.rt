//! Expressions of a plan, by the type of their values. A leaf is its number among the plan's leaves.

/// `=`, `<>`, `<`, `<=`, `>`, `>=`.
#[derive(Clone, Copy, PartialEq, Eq)]
pub enum Comparison {
    Equal,
    Unequal,
    Less,
    AtMost,
    Greater,
    AtLeast,
}

/// An expression whose values are whole numbers of 64 bits. What doesn't fit is NULL.
#[derive(Drop)]
pub enum Number {
    Literal(i64),
    Leaf(u32),
    Negative(Box<Number>),
    Add(Box<Number>, Box<Number>),
    Subtract(Box<Number>, Box<Number>),
    Multiply(Box<Number>, Box<Number>),
}

/// An expression whose values are texts.
#[derive(Drop)]
pub enum TextOf {
    Literal(String),
    Leaf(u32),
    Join(Box<TextOf>, Box<TextOf>),
}

/// An expression whose values are truth values. Operands of a comparison stand in its node, but for truth values.
#[derive(Drop)]
pub enum Truth {
    Literal(bool),
    Leaf(u32),
    Not(Box<Truth>),
    And(Box<Truth>, Box<Truth>),
    Or(Box<Truth>, Box<Truth>),
    Numbers(Comparison, Number, Number),
    Texts(Comparison, TextOf, TextOf),
    Truths(Comparison, Box<Truth>, Box<Truth>),
    Like(TextOf, String),
    Contains(TextOf, String),
    NumberIsNull(Number),
    TextIsNull(TextOf),
    TruthIsNull(Box<Truth>),
}

/// An expression of any type.
#[derive(Drop)]
pub enum Expr {
    Truth(Truth),
    Number(Number),
    Text(TextOf),
}
