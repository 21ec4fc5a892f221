//! The syntax tree of a query's text.

ghost use Rattle.std.specs.Prelude.{◌≡◌, IfOk, true};
ghost use Rattle.dr_meaning.specs.Parse.{parse_query};
ghost use Rattle.dr_sub_meaning.specs.NestedParse as nested;
ghost use Rattle.dr_sub_meaning.specs.ResultSchemaLaws.{have_items};
ghost use Rattle.dr_sql.specs.Faults.{Gives};
ghost use Rattle.dr_sql.specs.Views.{nested_view, query_view};

use crate::clauses::query;
use crate::cursor::Cursor;
use crate::fault::{QueryFault, QueryProblem};
use crate::lexing::tokens_of;
use crate::limits::LONGEST_QUERY;
use crate::query::{Nested, Query};
use crate::selects::selects;
use std::alloc::Global;

/// The syntax tree of a query's text. Names and texts in it are lent from the text.
///
/// The language is a small SQL: items with COUNT, SUM, MIN and MAX, WITHIN, WHERE and GROUP BY; docs/QUERY.md shows it.
///
/// Errors: the fault at the lowest byte place. At one place Syntax is told before TooDeep, and that before TooMany. A
/// text of more than 65,536 bytes is TooLong whatever it says. Want of memory.
pub fn parse<'a>(alloc: Global, text: &'a str) -> Result<Query<'a>, QueryFault>
    ensures { Gives query_view (parse_query text.now) result }
{
    if text.len() > LONGEST_QUERY {
        return Err(QueryFault::Refused {
            place: LONGEST_QUERY,
            problem: QueryProblem::TooLong,
        });
    }
    let tokens = tokens_of(alloc, text)?;
    let mut cursor = Cursor {
        tokens: &tokens,
        read: 0,
        size: text.len(),
        operators: 0,
    };
    query(alloc, &mut cursor)
}

/// The SELECTs of a query's text, each over the one in its FROM, with the order and the limit of each. Names and texts
/// in them are lent from the text.
///
/// The language is that of `parse`, where FROM may have a query in parentheses, and ORDER BY and LIMIT may stand at the
/// end of each SELECT. Such a parenthesis is a nesting of what stands in it.
///
/// Errors: as `parse`.
pub fn parse_nested<'a>(alloc: Global, text: &'a str) -> Result<Nested<'a>, QueryFault>
    ensures tree { Gives nested_view (nested.parse_nested text.now) result }
    ensures items { IfOk result (λ n. have_items (nested_view n) ≡ true) }
{
    if text.len() > LONGEST_QUERY {
        return Err(QueryFault::Refused {
            place: LONGEST_QUERY,
            problem: QueryProblem::TooLong,
        });
    }
    let tokens = tokens_of(alloc, text)?;
    let mut cursor = Cursor {
        tokens: &tokens,
        read: 0,
        size: text.len(),
        operators: 0,
    };
    selects(alloc, &mut cursor)
}
