//! Reserved words and signs.

/// The reserved words, read without regard to case.
#[derive(Clone, Copy, PartialEq, Eq)]
pub enum Word {
    Select,
    From,
    Where,
    Group,
    By,
    As,
    Within,
    Record,
    And,
    Or,
    Not,
    Like,
    Contains,
    Is,
    Null,
    True,
    False,
    Count,
    Sum,
    Min,
    Max,
    Distinct,
    Order,
    Limit,
    Asc,
    Desc,
}

/// The signs `, ( ) . * + - = <> < <= > >= ;`.
#[derive(Clone, Copy, PartialEq, Eq)]
pub enum Sign {
    Comma,
    Open,
    Close,
    Dot,
    Star,
    Plus,
    Minus,
    Equal,
    Differ,
    Less,
    LessOrEqual,
    Greater,
    GreaterOrEqual,
    Semicolon,
}
