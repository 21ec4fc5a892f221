//! Reading items. `depth` says how many nestings may still be opened.

ghost use Rattle.std.specs.Prelude.{◌≡◌, option_map, option_and_then};
ghost use Rattle.dr_meaning.specs.Parse as parse;
ghost use Rattle.dr_sub_meaning.specs.NestedParse as nested;
ghost use Rattle.dr_sql.specs.Productions.{item_term, items_at};
ghost use Rattle.dr_sql.specs.Reads.{unread, Reads};
ghost use Rattle.dr_sql.specs.Views.{aggregate_view, item_view, items_view, maybe_lent, maybe_within, term_view};

use crate::cursor::Cursor;
use crate::fault::{QueryFault, QueryProblem};
use crate::limits::MOST_ITEMS;
use crate::operands::{deeper, expression};
use crate::paths::path;
use crate::query::{Aggregate, Item, Node, Term, Within};
use crate::token::Token;
use crate::word::{Sign, Word};
use std::alloc::Global;

/// The aggregate that the next token is.
fn next_aggregate(cursor: &Cursor<'_, '_>) -> Option<Aggregate>
    ensures { option_map aggregate_view result
        ≡ option_and_then parse.aggregate_in (parse.first_token (unread cursor.now).tokens) }
{
    match cursor.next() {
        Some(Token::Word(Word::Count)) => Some(Aggregate::Count),
        Some(Token::Word(Word::Sum)) => Some(Aggregate::Sum),
        Some(Token::Word(Word::Min)) => Some(Aggregate::Min),
        Some(Token::Word(Word::Max)) => Some(Aggregate::Max),
        _ => None,
    }
}

/// Whether an item begins with the next token.
fn begins_item(cursor: &Cursor<'_, '_>) -> bool
    ensures { result ≡ parse.next_is parse.begins_item (unread cursor.now) }
{
    match cursor.next() {
        Some(Token::Name(_) | Token::Number(_) | Token::Text(_)) => true,
        Some(Token::Sign(sign)) => matches!(sign, Sign::Open | Sign::Minus),
        Some(Token::Word(word)) => matches!(
            word,
            Word::True | Word::False | Word::Not | Word::Count | Word::Sum | Word::Min | Word::Max
        ),
        Some(Token::Bad) | None => false,
    }
}

/// [WITHIN (RECORD | path)]
fn within<'a>(alloc: Global, cursor: &mut Cursor<'_, 'a>) -> Result<Option<Within<'a>>, QueryFault>
    ensures { Reads maybe_within (parse.within_part (unread cursor.old)) (unread cursor.new) result }
{
    if !cursor.next_is_word(Word::Within) {
        return Ok(None);
    }
    let place = cursor.advance();
    if cursor.next_is_word(Word::Record) {
        cursor.advance();
        let node = Node::Record;
        Ok(Some(Within { place, node }))
    } else {
        let node = Node::Path(path(alloc, cursor)?);
        Ok(Some(Within { place, node }))
    }
}

/// "*" ")", behind COUNT "(", and what is within
fn rows_argument<'a>(alloc: Global, cursor: &mut Cursor<'_, 'a>) -> Result<Term<'a>, QueryFault>
    ensures { Reads term_view (parse.rows_argument (unread cursor.old)) (unread cursor.new) result }
{
    cursor.operator()?;
    cursor.sign(Sign::Close)?;
    Ok(Term::CountRows(within(alloc, cursor)?))
}

/// expr ")", behind an aggregate's "(", which is a nesting, and what is within
fn expression_argument<'a>(
    alloc: Global,
    cursor: &mut Cursor<'_, 'a>,
    aggregate: Aggregate,
    depth: u32,
) -> Result<Term<'a>, QueryFault>
    ensures { Reads term_view (nested.argument_term depth (aggregate_view aggregate) (unread cursor.old))
        (unread cursor.new) result }
{
    let argument = expression(alloc, cursor, depth)?;
    cursor.sign(Sign::Close)?;
    let within = within(alloc, cursor)?;
    Ok(Term::Aggregate(aggregate, argument, within))
}

/// "(" ("*" | expr) ")" [WITHIN (RECORD | path)], behind an aggregate's word; "*" behind COUNT alone
fn argument<'a>(
    alloc: Global,
    cursor: &mut Cursor<'_, 'a>,
    aggregate: Aggregate,
    depth: u32,
) -> Result<Term<'a>, QueryFault>
    ensures { Reads term_view (nested.opened_term depth (aggregate_view aggregate) (unread cursor.old))
        (unread cursor.new) result }
{
    if !cursor.next_is_sign(Sign::Open) {
        return Err(cursor.fault(QueryProblem::Syntax));
    }
    let inside = deeper(cursor, depth)?;
    cursor.advance();
    let is_count = matches!(aggregate, Aggregate::Count);
    if is_count && cursor.next_is_sign(Sign::Star) {
        rows_argument(alloc, cursor)
    } else {
        expression_argument(alloc, cursor, aggregate, inside)
    }
}

/// ( COUNT "(" ("*" | expr) ")" | (SUM|MIN|MAX) "(" expr ")" ) [WITHIN (RECORD | path)]
fn aggregate_term<'a>(
    alloc: Global,
    cursor: &mut Cursor<'_, 'a>,
    aggregate: Aggregate,
    depth: u32,
) -> Result<Term<'a>, QueryFault>
    ensures { Reads term_view (nested.aggregate_term depth (aggregate_view aggregate) (unread cursor.old))
        (unread cursor.new) result }
{
    cursor.advance();
    argument(alloc, cursor, aggregate, depth)
}

/// agg | expr
fn term<'a>(alloc: Global, cursor: &mut Cursor<'_, 'a>, depth: u32) -> Result<Term<'a>, QueryFault>
    ensures { Reads term_view (item_term depth (unread cursor.old)) (unread cursor.new) result }
{
    match next_aggregate(cursor) {
        Some(aggregate) => aggregate_term(alloc, cursor, aggregate, depth),
        None => Ok(Term::Expression(expression(alloc, cursor, depth)?)),
    }
}

/// [AS name]
fn item_name<'a>(cursor: &mut Cursor<'_, 'a>) -> Result<Option<&'a str>, QueryFault>
    ensures { Reads maybe_lent (parse.as_part (unread cursor.old)) (unread cursor.new) result }
{
    if !cursor.next_is_word(Word::As) {
        return Ok(None);
    }
    cursor.advance();
    Ok(Some(cursor.name()?))
}

/// item = ( agg | expr ) [AS name]
fn item<'a>(alloc: Global, cursor: &mut Cursor<'_, 'a>, depth: u32) -> Result<Item<'a>, QueryFault>
    ensures { Reads item_view (nested.item depth (unread cursor.old)) (unread cursor.new) result }
{
    let place = cursor.place();
    let term = term(alloc, cursor, depth)?;
    let name = item_name(cursor)?;
    Ok(Item { place, term, name })
}

/// item {"," item}
pub fn items<'a>(
    alloc: Global,
    cursor: &mut Cursor<'_, 'a>,
    depth: u32,
) -> Result<Vec<Item<'a>>, QueryFault>
    ensures { Reads items_view (items_at depth (unread cursor.old)) (unread cursor.new) result }
{
    let mut items = Vec::new(alloc);
    items.push(item(alloc, cursor, depth)?)?;
    'items: while cursor.next_is_sign(Sign::Comma) {
        cursor.advance();
        if items.len() >= MOST_ITEMS {
            let begins = begins_item(cursor);
            return Err(cursor.one_too_many(begins));
        }
        items.push(item(alloc, cursor, depth)?)?;
    }
    Ok(items)
}
