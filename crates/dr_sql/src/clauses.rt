//! Reading the clauses behind the items. `depth` says how many nestings may still be opened.

ghost use Rattle.std.specs.Prelude.{◌≡◌};
ghost use Rattle.dr_meaning.specs.Parse as parse;
ghost use Rattle.dr_sub_meaning.specs.NestedParse as nested;
ghost use Rattle.dr_sql.specs.Productions.{query_at, where_at};
ghost use Rattle.dr_sql.specs.Reads.{unread, Reads, same};
ghost use Rattle.dr_sql.specs.Views.{keys_view, maybe_condition, maybe_order, query_view, same_limit, table_view};

use crate::cursor::Cursor;
use crate::expression::Path;
use crate::fault::{QueryFault, QueryProblem};
use crate::items::items;
use crate::limits::{GREATEST_NESTING, MOST_ITEMS};
use crate::operands::expression;
use crate::paths::path;
use crate::query::{Condition, Order, Query, Table};
use crate::token::Token;
use crate::word::{Sign, Word};
use std::alloc::Global;

/// The name behind FROM.
pub fn table<'a>(cursor: &mut Cursor<'_, 'a>) -> Result<Table<'a>, QueryFault>
    ensures { Reads table_view (parse.table_name (unread cursor.old)) (unread cursor.new) result }
{
    let place = cursor.place();
    let name = cursor.name()?;
    Ok(Table { place, name })
}

/// [WHERE expr]
#[tactic(auto, unfolding(crate::specs::Productions::where_at))]
pub fn condition<'a>(
    alloc: Global,
    cursor: &mut Cursor<'_, 'a>,
    depth: u32,
) -> Result<Option<Condition<'a>>, QueryFault>
    ensures { Reads maybe_condition (where_at depth (unread cursor.old)) (unread cursor.new) result }
{
    if !cursor.next_is_word(Word::Where) {
        return Ok(None);
    }
    cursor.advance();
    let place = cursor.place();
    let expression = expression(alloc, cursor, depth)?;
    Ok(Some(Condition { place, expression }))
}

/// Whether a key begins with the next token.
fn begins_key(cursor: &Cursor<'_, '_>) -> bool
    ensures { result ≡ parse.next_is parse.begins_key (unread cursor.now) }
{
    matches!(cursor.next(), Some(Token::Name(_)))
}

/// path {"," path}
fn keys<'a>(alloc: Global, cursor: &mut Cursor<'_, 'a>) -> Result<Vec<Path<'a>>, QueryFault>
    ensures { Reads keys_view (parse.keys (unread cursor.old)) (unread cursor.new) result }
{
    let mut keys = Vec::new(alloc);
    keys.push(path(alloc, cursor)?)?;
    'keys: while cursor.next_is_sign(Sign::Comma) {
        cursor.advance();
        if keys.len() >= MOST_ITEMS {
            let begins = begins_key(cursor);
            return Err(cursor.one_too_many(begins));
        }
        keys.push(path(alloc, cursor)?)?;
    }
    Ok(keys)
}

/// [GROUP BY path {"," path}]
pub fn grouping<'a>(alloc: Global, cursor: &mut Cursor<'_, 'a>) -> Result<Vec<Path<'a>>, QueryFault>
    ensures { Reads keys_view (parse.group_part (unread cursor.old)) (unread cursor.new) result }
{
    if !cursor.next_is_word(Word::Group) {
        return Ok(Vec::new(alloc));
    }
    cursor.advance();
    cursor.word(Word::By)?;
    keys(alloc, cursor)
}

/// [ASC|DESC]: whether the order descends
fn descends(cursor: &mut Cursor<'_, '_>) -> bool
    ensures { nested.direction (unread cursor.old) ≡ parse.got result (unread cursor.new) }
{
    if cursor.next_is_word(Word::Desc) {
        cursor.advance();
        return true;
    }
    if cursor.next_is_word(Word::Asc) {
        cursor.advance();
    }
    false
}

/// [ORDER BY path [ASC|DESC]]
pub fn order<'a>(
    alloc: Global,
    cursor: &mut Cursor<'_, 'a>,
) -> Result<Option<Order<'a>>, QueryFault>
    ensures { Reads maybe_order (nested.order_part (unread cursor.old)) (unread cursor.new) result }
{
    if !cursor.next_is_word(Word::Order) {
        return Ok(None);
    }
    cursor.advance();
    cursor.word(Word::By)?;
    let path = path(alloc, cursor)?;
    let descending = descends(cursor);
    Ok(Some(Order { path, descending }))
}

/// [LIMIT number]
pub fn limit(cursor: &mut Cursor<'_, '_>) -> Result<Option<u64>, QueryFault>
    ensures { Reads same_limit (nested.limit_part (unread cursor.old)) (unread cursor.new) result }
{
    if !cursor.next_is_word(Word::Limit) {
        return Ok(None);
    }
    cursor.advance();
    Ok(Some(cursor.number()?))
}

/// [";"] and the text's end
pub fn end(cursor: &mut Cursor<'_, '_>) -> Result<usize, QueryFault>
    ensures { Reads same (parse.end_part (unread cursor.old)) (unread cursor.new) result }
{
    if cursor.next_is_sign(Sign::Semicolon) {
        cursor.advance();
    }
    match cursor.next() {
        Some(_) => Err(cursor.fault(QueryProblem::Syntax)),
        None => Ok(cursor.place()),
    }
}

/// query = SELECT item {"," item} FROM name [WHERE expr] [GROUP BY path {"," path}] [";"]
pub fn query<'a>(alloc: Global, cursor: &mut Cursor<'_, 'a>) -> Result<Query<'a>, QueryFault>
    ensures { Reads query_view (query_at (unread cursor.old)) (unread cursor.new) result }
{
    cursor.word(Word::Select)?;
    let items = items(alloc, cursor, GREATEST_NESTING)?;
    cursor.word(Word::From)?;
    let table = table(cursor)?;
    let condition = condition(alloc, cursor, GREATEST_NESTING)?;
    let keys = grouping(alloc, cursor)?;
    end(cursor)?;
    Ok(Query {
        items,
        table,
        condition,
        keys,
    })
}
