//! What opens a nesting.

/// A parenthesis; a NOT before an operand; a minus sign before one.
#[derive(Clone, Copy)]
pub enum Nesting {
    Parenthesis,
    Not,
    Minus,
}
