//! The answer of `ask`.

ghost use Rattle.std.specs.Prelude.{◌≡◌, [], true, IfOk, IfErr, OnOk};
ghost use Rattle.dr_input.specs.Taken.{WhereTold};
ghost use Rattle.dr_commands.specs.Meaning.{done};
ghost use Rattle.dr_commands.specs.Ask.{ask_meaning, ask_view};
ghost use Rattle.dr_top.specs.Printed.{printed};
ghost use Rattle.dr_top.specs.World.{Opens, outcome_on};
ghost use Rattle.dr_top.specs.Stops.{StopsReading, IsReadBy};

use crate::output::Output;
use crate::service::{ALL_TABLETS, service_of};
use crate::stop::Stop;
use dr_commands::commands::Ask;
use dr_nested::parse_schema;
use dr_outside::Source;
use dr_serve::ask_input;
use dr_sub::read_nested;
use std::alloc::Global;
use std::sync::Wait;
use std::thread::Threads;

/// The text that `ask` prints, of its file and the input.
///
/// Errors: the first refusal: the schema, the query, then the input's lines; the source failed; want of memory.
pub fn answer<R: Threads + Wait + Sync, S: Source>(
    rt: &R,
    alloc: Global,
    words: &Ask,
    file: &[u8],
    source: &mut S,
) -> Result<Output, Stop>
    ensures text { IfOk result (λ t. WhereTold (S.shows source.old).left
        (λ lines. outcome_on (ask_meaning (ask_view words.now)) file.now lines ≡ done (printed t) [])) }
    ensures opened { OnOk result (Opens (outcome_on (ask_meaning (ask_view words.now)) file.now)) }
    ensures read { OnOk result (IsReadBy true (S.shows source.old) (S.shows source.new)) }
    ensures source_calm { OnOk result ((S.shows source.new).faults ≡ (S.shows source.old).faults) }
    ensures stops { IfErr result (StopsReading (outcome_on (ask_meaning (ask_view words.now)) file.now)
        (S.shows source.old) (S.shows source.new)) }
{
    let schema = parse_schema(alloc, file)?;
    let plans = read_nested(alloc, &schema, words.query.as_str())?;
    let text = ask_input(
        rt,
        alloc,
        schema,
        &plans,
        words.rows,
        &service_of(&words.serving, ALL_TABLETS),
        source,
    )?;
    Ok(Output::Text(text))
}
