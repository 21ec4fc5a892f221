//! The text of a query as a syntax tree, or its first fault.
#![tactic(auto)]

mod building;
mod clauses;
mod cursor;
mod expression;
mod fault;
mod items;
mod lexing;
mod limits;
mod nesting;
mod numeral;
mod operands;
mod operators;
mod parsing;
mod paths;
mod precedence;
mod query;
mod selects;
mod token;
mod unquoting;
mod word;
mod word_test;
mod word_tests;
mod words;

pub use expression::{Arithmetic, Comparison, Expression, Path};
pub use fault::{QueryFault, QueryProblem};
pub use limits::{
    GREATEST_NESTING, LONGEST_QUERY, MOST_ITEMS, MOST_OPERATORS, query_limits_are_as_defined,
};
pub use numeral::Numeral;
pub use parsing::{parse, parse_nested};
pub use query::{
    Aggregate, Condition, Item, Nested, Node, Order, Query, Select, Table, Term, Within,
};
pub use unquoting::unquoted;
