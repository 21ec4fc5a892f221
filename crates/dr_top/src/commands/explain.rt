//! The answer of `explain`.

ghost use Rattle.std.specs.Prelude.{◌≡◌, [], IfOk, IfErr};
ghost use Rattle.dr_commands.specs.Meaning.{done};
ghost use Rattle.dr_commands.specs.Explain.{explain_meaning, explain_view};
ghost use Rattle.dr_top.specs.Printed.{printed};
ghost use Rattle.dr_top.specs.World.{outcome_on};
ghost use Rattle.dr_top.specs.Stops.{StopsEarly};

use crate::output::Output;
use crate::stop::Stop;
use dr_commands::commands::Explain;
use dr_nested::parse_schema;
use dr_rewrite::nested_text;
use dr_sub::read_nested;
use std::alloc::Global;

/// The text that `explain` prints, of its file.
///
/// Errors: the first refusal: the schema, then the query; want of memory.
pub fn answer(alloc: Global, words: &Explain, file: &[u8]) -> Result<Output, Stop>
    ensures text { IfOk result (λ t. outcome_on (explain_meaning (explain_view words.now)) file.now []
        ≡ done (printed t) []) }
    ensures stops { IfErr result (StopsEarly (outcome_on (explain_meaning (explain_view words.now)) file.now)) }
{
    let schema = parse_schema(alloc, file)?;
    let plans = read_nested(alloc, &schema, words.query.as_str())?;
    let text = nested_text(alloc, &schema, &plans)?;
    Ok(Output::Text(text))
}
