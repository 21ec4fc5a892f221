//! Reading expressions, by the productions of the grammar; those that join operands are one function, by precedences.
//! `depth` says how many nestings may still be opened.

ghost use Rattle.std.specs.Prelude.{◌≡◌, suc, IfOk, IfErr};
ghost use Rattle.dr_meaning.specs.Parse as parse;
ghost use Rattle.dr_sql.specs.Boxes.{boxed_view};
ghost use Rattle.dr_sql.specs.Reads.{unread, Reads};
ghost use Rattle.dr_sql.specs.Precedences.{joined_of, nesting_view, operand_of};

use crate::building::boxed;
use crate::cursor::Cursor;
use crate::expression::Expression;
use crate::fault::{QueryFault, QueryProblem};
use crate::nesting::Nesting;
use crate::operators::next_comparison;
use crate::paths::path;
use crate::precedence::{Joining, Precedence};
use crate::token::Token;
use crate::word::{Sign, Word};
use crate::word_tests::word_test;
use std::alloc::Global;

/// How many nestings may be opened in the one that the next token opens.
///
/// Errors: none may be opened.
pub fn deeper(cursor: &Cursor<'_, '_>, depth: u32) -> Result<u32, QueryFault>
    ensures inside { IfOk result (λ n. depth ≡ suc n) }
    ensures none { IfErr result (λ e. (e ≡ QueryFault.Refused
        (parse.place_of (unread cursor.now)) QueryProblem.TooDeep)) }
    ensures fault { IfErr result (λ e. depth ≡ 0) }
{
    match depth.checked_sub(1) {
        Some(inside) => Ok(inside),
        None => Err(cursor.fault(QueryProblem::TooDeep)),
    }
}

/// expr = and {OR and}
pub fn expression<'a>(
    alloc: Global,
    cursor: &mut Cursor<'_, 'a>,
    depth: u32,
) -> Result<Box<Expression<'a>>, QueryFault>
    ensures { Reads boxed_view (parse.expression_of (parse.nested depth) (unread cursor.old))
        (unread cursor.new) result }
{
    joined(alloc, cursor, Precedence::Or, depth)
}

/// Operands of a precedence, joined by its operators, as in and = not {AND not}, sum = prod {("+"|"-") prod} and
/// prod = unary {"*" unary}.
#[cycle(operands)]
fn joined<'a>(
    alloc: Global,
    cursor: &mut Cursor<'_, 'a>,
    precedence: Precedence,
    depth: u32,
) -> Result<Box<Expression<'a>>, QueryFault>
    ensures { Reads boxed_view (joined_of precedence (parse.nested depth) (unread cursor.old))
        (unread cursor.new) result }
{
    let mut left = operand(alloc, cursor, precedence, depth)?;
    'operators: for _ in 0..cursor.left() {
        let Some(joining) = precedence.next(cursor) else {
            break;
        };
        let place = cursor.operator()?;
        let right = operand(alloc, cursor, precedence, depth)?;
        left = boxed(alloc, Expression::joined(place, joining, left, right))?;
    }
    Ok(left)
}

/// An operand of a precedence, as in not = NOT not | test and unary = "-" unary | prim.
#[cycle(operands)]
fn operand<'a>(
    alloc: Global,
    cursor: &mut Cursor<'_, 'a>,
    precedence: Precedence,
    depth: u32,
) -> Result<Box<Expression<'a>>, QueryFault>
    ensures { Reads boxed_view (operand_of precedence (parse.nested depth) (unread cursor.old))
        (unread cursor.new) result }
{
    match precedence {
        Precedence::Or => joined(alloc, cursor, Precedence::And, depth),
        Precedence::And if cursor.next_is_word(Word::Not) => {
            nested(alloc, cursor, Nesting::Not, depth)
        }
        Precedence::And => test(alloc, cursor, depth),
        Precedence::Sum => joined(alloc, cursor, Precedence::Product, depth),
        Precedence::Product if cursor.next_is_sign(Sign::Minus) => {
            nested(alloc, cursor, Nesting::Minus, depth)
        }
        Precedence::Product => primary(alloc, cursor, depth),
    }
}

/// test = sum [ ("="|"<>"|"<"|"<="|">"|">=") sum | [NOT] LIKE text | [NOT] CONTAINS text | IS [NOT] NULL ]
#[cycle(operands)]
#[tactic(auto, using(crate::proofs::BoxLemmas::reads_built))]
fn test<'a>(
    alloc: Global,
    cursor: &mut Cursor<'_, 'a>,
    depth: u32,
) -> Result<Box<Expression<'a>>, QueryFault>
    ensures { Reads boxed_view (parse.test_of (parse.nested depth) (unread cursor.old))
        (unread cursor.new) result }
{
    let left = joined(alloc, cursor, Precedence::Sum, depth)?;
    match next_comparison(cursor) {
        Some(operator) => {
            let place = cursor.advance();
            let right = joined(alloc, cursor, Precedence::Sum, depth)?;
            let joining = Joining::Comparison(operator);
            boxed(alloc, Expression::joined(place, joining, left, right))
        }
        None => word_test(alloc, cursor, left),
    }
}

/// prim = number | text | TRUE | FALSE | path | "(" expr ")"
#[cycle(operands)]
#[tactic(auto, using(crate::proofs::BoxLemmas::reads_built))]
fn primary<'a>(
    alloc: Global,
    cursor: &mut Cursor<'_, 'a>,
    depth: u32,
) -> Result<Box<Expression<'a>>, QueryFault>
    ensures { Reads boxed_view (parse.primary (parse.nested depth) (unread cursor.old))
        (unread cursor.new) result }
{
    match cursor.next() {
        Some(Token::Number(number)) => {
            cursor.advance();
            boxed(alloc, Expression::Number(number))
        }
        Some(Token::Text(text)) => {
            cursor.advance();
            boxed(alloc, Expression::Text(text))
        }
        Some(Token::Word(Word::True)) => {
            cursor.advance();
            boxed(alloc, Expression::Truth(true))
        }
        Some(Token::Word(Word::False)) => {
            cursor.advance();
            boxed(alloc, Expression::Truth(false))
        }
        Some(Token::Name(_)) => {
            let path = path(alloc, cursor)?;
            boxed(alloc, Expression::Path(path))
        }
        Some(Token::Sign(Sign::Open)) => nested(alloc, cursor, Nesting::Parenthesis, depth),
        _ => Err(cursor.fault(QueryProblem::Syntax)),
    }
}

/// "(" expr ")", NOT not or "-" unary, at the token that opens it.
#[cycle(operands)]
#[tactic(auto, using(crate::proofs::BoxLemmas::reads_built))]
fn nested<'a>(
    alloc: Global,
    cursor: &mut Cursor<'_, 'a>,
    nesting: Nesting,
    depth: u32,
) -> Result<Box<Expression<'a>>, QueryFault>
    ensures { Reads boxed_view (parse.nested depth (nesting_view nesting) (unread cursor.old))
        (unread cursor.new) result }
{
    let inside = deeper(cursor, depth)?;
    match nesting {
        Nesting::Parenthesis => {
            cursor.advance();
            let inner = joined(alloc, cursor, Precedence::Or, inside)?;
            cursor.sign(Sign::Close)?;
            Ok(inner)
        }
        Nesting::Not => {
            let place = cursor.advance();
            let inner = operand(alloc, cursor, Precedence::And, inside)?;
            boxed(alloc, Expression::negation(place, inner))
        }
        Nesting::Minus => {
            let place = cursor.operator()?;
            let inner = operand(alloc, cursor, Precedence::Product, inside)?;
            boxed(alloc, Expression::negative(place, inner))
        }
    }
}
