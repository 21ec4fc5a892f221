//! Reading SELECTs over one another. `depth` says how many nestings may still be opened.

ghost use Rattle.std.specs.Prelude.{◌≡◌, IfOk, option_map};
ghost use Rattle.dr_sub_meaning.specs.NestedParse as nested;
ghost use Rattle.dr_sql.specs.Productions.{parenthesized_at, select_at, source_at, whole_at};
ghost use Rattle.dr_sql.specs.Reads.{unread, Reads};
ghost use Rattle.dr_sql.specs.Views.{maybe_nested, nested_view, select_view, source_view};

use crate::clauses::{condition, end, grouping, limit, order, table};
use crate::cursor::Cursor;
use crate::fault::QueryFault;
use crate::items::items;
use crate::limits::GREATEST_NESTING;
use crate::operands::deeper;
use crate::query::{Nested, Query, Select, Table};
use crate::word::{Sign, Word};
use dr_memory::NoMemory;
use std::alloc::Global;

/// What FROM has: a table; or SELECTs in parentheses, with the table that these stand for.
#[derive(Drop)]
pub struct Source<'a> {
    pub table: Table<'a>,
    pub inner: Option<Nested<'a>>,
}

/// A SELECT over those in its FROM.
///
/// Errors: want of memory alone.
fn over<'a>(
    alloc: Global,
    inner: Option<Nested<'a>>,
    select: Select<'a>,
) -> Result<Nested<'a>, NoMemory>
    ensures { IfOk result (λ n. nested_view n
        ≡ nested.over_from (select_view select.entry) (maybe_nested inner.entry)) }
{
    match inner {
        Some(mut below) => {
            below.others.push(select)?;
            Ok(below)
        }
        None => Ok(Nested {
            first: select,
            others: Vec::new(alloc),
        }),
    }
}

/// name
fn named<'a>(cursor: &mut Cursor<'_, 'a>) -> Result<Source<'a>, QueryFault>
    ensures { Reads source_view (nested.from_table (unread cursor.old)) (unread cursor.new) result }
{
    let table = table(cursor)?;
    Ok(Source { table, inner: None })
}

/// "(" query ")", at its parenthesis
#[cycle(selects)]
fn in_parentheses<'a>(
    alloc: Global,
    cursor: &mut Cursor<'_, 'a>,
    depth: u32,
) -> Result<Source<'a>, QueryFault>
    ensures { Reads source_view (parenthesized_at depth (unread cursor.old)) (unread cursor.new) result }
{
    let inside = deeper(cursor, depth)?;
    let place = cursor.advance();
    let inner = select(alloc, cursor, inside)?;
    cursor.sign(Sign::Close)?;
    let table = Table {
        place,
        name: "Result",
    };
    Ok(Source {
        table,
        inner: Some(inner),
    })
}

/// name | "(" query ")"
#[cycle(selects)]
fn from_clause<'a>(
    alloc: Global,
    cursor: &mut Cursor<'_, 'a>,
    depth: u32,
) -> Result<Source<'a>, QueryFault>
    ensures { Reads source_view (source_at depth (unread cursor.old)) (unread cursor.new) result }
{
    if cursor.next_is_sign(Sign::Open) {
        in_parentheses(alloc, cursor, depth)
    } else {
        named(cursor)
    }
}

/// SELECT item {"," item} FROM ( name | "(" query ")" ) [WHERE expr] [GROUP BY path {"," path}]
/// [ORDER BY path [ASC|DESC]] [LIMIT number]
#[cycle(selects)]
fn select<'a>(
    alloc: Global,
    cursor: &mut Cursor<'_, 'a>,
    depth: u32,
) -> Result<Nested<'a>, QueryFault>
    ensures { Reads nested_view (select_at depth (unread cursor.old)) (unread cursor.new) result }
{
    let place = cursor.word(Word::Select)?;
    let items = items(alloc, cursor, depth)?;
    cursor.word(Word::From)?;
    let source = from_clause(alloc, cursor, depth)?;
    let condition = condition(alloc, cursor, depth)?;
    let keys = grouping(alloc, cursor)?;
    let order = order(alloc, cursor)?;
    let limit = limit(cursor)?;
    let query = Query {
        items,
        table: source.table,
        condition,
        keys,
    };
    let select = Select {
        place,
        query,
        order,
        limit,
    };
    Ok(over(alloc, source.inner, select)?)
}

/// query [";"]
pub fn selects<'a>(alloc: Global, cursor: &mut Cursor<'_, 'a>) -> Result<Nested<'a>, QueryFault>
    ensures { Reads nested_view (whole_at (unread cursor.old)) (unread cursor.new) result }
{
    let selects = select(alloc, cursor, GREATEST_NESTING)?;
    end(cursor)?;
    Ok(selects)
}
