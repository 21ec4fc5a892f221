//! The answer of `trial`.

ghost use Rattle.std.specs.Prelude.{◌≡◌, [], IfOk, IfErr};
ghost use Rattle.dr_commands.specs.Meaning.{done};
ghost use Rattle.dr_commands.specs.Trial.{trial_meaning, trial_view};
ghost use Rattle.dr_top.specs.Printed.{printed};
ghost use Rattle.dr_top.specs.World.{outcome_on};
ghost use Rattle.dr_top.specs.Stops.{StopsEarly};

use crate::output::Output;
use crate::service::{ALL_TABLETS, service_of};
use crate::stop::Stop;
use dr_commands::commands::Trial;
use dr_gen::{GenSource, document_text, trial_query};
use dr_nested::parse_schema;
use dr_serve::ask_input;
use dr_sub::read_nested;
use std::alloc::Global;
use std::sync::Wait;
use std::thread::Threads;

/// The text that `trial` prints: that of `ask`, of which made records are the input.
///
/// Errors: the first line past those that 4,096 tablets hold; want of memory.
pub fn answer<R: Threads + Wait + Sync>(
    rt: &R,
    alloc: Global,
    words: &Trial,
) -> Result<Output, Stop>
    ensures text { IfOk result (λ t. outcome_on (trial_meaning (trial_view words.now)) [] [] ≡ done (printed t) []) }
    ensures stops { IfErr result (StopsEarly (outcome_on (trial_meaning (trial_view words.now)) [])) }
{
    let schema = parse_schema(alloc, document_text().as_bytes())?;
    let plans = read_nested(alloc, &schema, trial_query())?;
    let mut lines = GenSource::new(alloc, u64::from(words.seed), u64::from(words.records))?;
    let text = ask_input(
        rt,
        alloc,
        schema,
        &plans,
        words.rows,
        &service_of(&words.serving, ALL_TABLETS),
        &mut lines,
    )?;
    Ok(Output::Text(text))
}
