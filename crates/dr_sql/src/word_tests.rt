//! Reading what may stand behind a sum: LIKE and CONTAINS with a text, IS NULL, and their negations.

ghost use Rattle.std.specs.Prelude.{◌≡◌};
ghost use Rattle.dr_meaning.specs.Parse as parse;
ghost use Rattle.dr_meaning.specs.Syntax.{ExpressionSyntax};
ghost use Rattle.dr_sql.specs.Boxes.{boxed_view};
ghost use Rattle.dr_sql.specs.Reads.{unread, Reads};
ghost use Rattle.dr_sql.specs.Tests.{tested, text_test_of};

use crate::cursor::Cursor;
use crate::expression::Expression;
use crate::fault::{QueryFault, QueryProblem};
use crate::word::Word;
use crate::word_test::{TextTest, WordTest};
use std::alloc::Global;

/// LIKE text or CONTAINS text; negated where it is denied.
fn text_behind<'a>(
    cursor: &mut Cursor<'_, 'a>,
    test: TextTest,
    denied: bool,
) -> Result<WordTest<'a>, QueryFault>
    ensures { (e : ExpressionSyntax) → Reads (tested e) (text_test_of test denied e (unread cursor.old))
        (unread cursor.new) result }
{
    let place = cursor.advance();
    let text = cursor.text()?;
    Ok(WordTest::Text {
        place,
        test,
        text,
        denied,
    })
}

/// NOT LIKE text | NOT CONTAINS text
fn denied_test<'a>(cursor: &mut Cursor<'_, 'a>) -> Result<WordTest<'a>, QueryFault>
    ensures { (e : ExpressionSyntax) → Reads (tested e) (parse.denied_test e (unread cursor.old)) (unread cursor.new)
        result }
{
    cursor.advance();
    if cursor.next_is_word(Word::Like) {
        text_behind(cursor, TextTest::Like, true)
    } else if cursor.next_is_word(Word::Contains) {
        text_behind(cursor, TextTest::Contains, true)
    } else {
        Err(cursor.fault(QueryProblem::Syntax))
    }
}

/// IS [NOT] NULL
fn null_test<'a>(cursor: &mut Cursor<'_, 'a>) -> Result<WordTest<'a>, QueryFault>
    ensures { (e : ExpressionSyntax) → Reads (tested e) (parse.null_test e (unread cursor.old)) (unread cursor.new)
        result }
{
    let place = cursor.advance();
    let denied = cursor.next_is_word(Word::Not);
    if denied {
        cursor.advance();
    }
    cursor.word(Word::Null)?;
    Ok(WordTest::Null { place, denied })
}

/// LIKE text | CONTAINS text, or nothing more.
fn text_test<'a>(cursor: &mut Cursor<'_, 'a>) -> Result<WordTest<'a>, QueryFault>
    ensures { (e : ExpressionSyntax) → Reads (tested e) (parse.text_test parse.plain e (parse.give e)
        (unread cursor.old)) (unread cursor.new) result }
{
    if cursor.next_is_word(Word::Like) {
        text_behind(cursor, TextTest::Like, false)
    } else if cursor.next_is_word(Word::Contains) {
        text_behind(cursor, TextTest::Contains, false)
    } else {
        Ok(WordTest::Nothing)
    }
}

/// [NOT] LIKE text | [NOT] CONTAINS text | IS [NOT] NULL, or nothing more.
fn next_test<'a>(cursor: &mut Cursor<'_, 'a>) -> Result<WordTest<'a>, QueryFault>
    ensures { (e : ExpressionSyntax) → Reads (tested e) (parse.word_test e (unread cursor.old)) (unread cursor.new)
        result }
{
    if cursor.next_is_word(Word::Not) {
        denied_test(cursor)
    } else if cursor.next_is_word(Word::Is) {
        null_test(cursor)
    } else {
        text_test(cursor)
    }
}

/// [NOT] LIKE text | [NOT] CONTAINS text | IS [NOT] NULL, behind an expression, or nothing more.
pub fn word_test<'a>(
    alloc: Global,
    cursor: &mut Cursor<'_, 'a>,
    operand: Box<Expression<'a>>,
) -> Result<Box<Expression<'a>>, QueryFault>
    ensures { Reads boxed_view (parse.word_test (boxed_view operand.entry) (unread cursor.old))
        (unread cursor.new) result }
{
    let test = next_test(cursor)?;
    Ok(Expression::tested(alloc, operand, test)?)
}
