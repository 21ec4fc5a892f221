//! The answer of `query`.

ghost use Rattle.std.specs.Prelude.{◌≤◌, [], length, map, IfOk, IfErr};
ghost use Rattle.dr_commands.specs.Query.{query_meaning, query_view};
ghost use Rattle.dr_top.specs.Printed.{printed};
ghost use Rattle.dr_top.specs.World.{WithEach, outcome_on};
ghost use Rattle.dr_top.specs.Answers.{AsksLink, LeavesLinksBy};
ghost use Rattle.dr_top.specs.Reading.{HasText};
ghost use Rattle.dr_top.specs.Stops.{StopsAsking};

use crate::output::Output;
use crate::service::service_of;
use crate::stop::Stop;
use dr_commands::commands::Query;
use dr_outside::Link;
use dr_serve::{Queried, query_table};
use dr_sub::read_nested;
use dr_table::parse_table;
use std::alloc::Global;
use std::sync::Wait;
use std::thread::Threads;

/// The text that `query` prints, of its file: that of the table, served by as many workers as the words say, each with
/// a link of its own, the first so many.
///
/// Errors: the first refusal: the table, then the query; tablets are left, and the text is that of the others or of
/// none; want of memory.
pub fn answer<R: Threads + Wait + Sync, L: Link + Send>(
    rt: &R,
    alloc: Global,
    words: &Query,
    file: &[u8],
    links: &mut [L],
) -> Result<Output, Stop>
    requires links { 16 ≤ length links.old }
    ensures text { IfOk result (λ t. HasText (outcome_on (query_meaning (query_view words.now)) file.now [])
        (map L.shows links.old) (map L.shows links.new) (printed t)) }
    ensures stops { IfErr result (StopsAsking (outcome_on (query_meaning (query_view words.now)) file.now [])
        (map L.shows links.old) (map L.shows links.new)) }
    ensures reads { WithEach (map L.shows links.old) (map L.shows links.new)
        (AsksLink (outcome_on (query_meaning (query_view words.now)) file.now [])) }
    ensures links { LeavesLinksBy ((words.now).serving).workers (map L.shows links.old) (map L.shows links.new) }
{
    let table = parse_table(alloc, file)?;
    let plans = read_nested(alloc, &table.schema, words.query.as_str())?;
    match query_table(
        rt,
        alloc,
        links,
        &table,
        &plans,
        &service_of(&words.serving, words.least),
    )? {
        Queried::Text(text) => Ok(Output::Text(text)),
        Queried::Most(text, left) => Err(Stop::Most { text, left }),
        Queried::Left(left) => Err(Stop::Left(left)),
    }
}
