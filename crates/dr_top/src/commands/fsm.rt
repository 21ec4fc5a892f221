//! The answer of `fsm`.

ghost use Rattle.std.specs.Prelude.{◌≡◌, [], map, string_bytes, IfOk, IfErr};
ghost use Rattle.dr_meaning.specs.Fsm.{fsm_leaves};
ghost use Rattle.dr_nested.specs.Views.{fields_view};
ghost use Rattle.dr_nested.specs.PathView.{path_view};
ghost use Rattle.dr_commands.specs.Meaning.{done};
ghost use Rattle.dr_commands.specs.Fsm.{fsm_meaning, fsm_view};
ghost use Rattle.dr_top.specs.Printed.{printed};
ghost use Rattle.dr_top.specs.World.{outcome_on};
ghost use Rattle.dr_top.specs.Stops.{StopsEarly};

use crate::fields::find_fields;
use crate::output::Output;
use crate::stop::Stop;
use dr_commands::commands::Fsm;
use dr_fsm::{Automaton, Order};
use dr_memory::NoMemory;
use dr_nested::{Path, Schema, parse_schema};
use dr_print::automaton_text;
use std::alloc::Global;

/// The text of the automaton of leaves in schema order.
fn leaves_text(alloc: Global, schema: &Schema, leaves: &[Path]) -> Result<String, NoMemory>
    ensures { IfOk result (λ t. string_bytes t
        ≡ fsm_leaves (fields_view (schema.now).fields.items) (map path_view leaves.now)) }
{
    let automaton = Automaton::build(alloc, schema, leaves, Order::BySchema)?;
    automaton_text(alloc, leaves, &automaton)
}

/// The text that `fsm` prints, of its file.
///
/// Errors: the first refusal: the schema, then the FIELD words in order; want of memory.
pub fn answer(alloc: Global, fsm: &Fsm, file: &[u8]) -> Result<Output, Stop>
    ensures text { IfOk result (λ t. outcome_on (fsm_meaning (fsm_view fsm.now)) file.now [] ≡ done (printed t) []) }
    ensures stops { IfErr result (StopsEarly (outcome_on (fsm_meaning (fsm_view fsm.now)) file.now)) }
{
    let schema = parse_schema(alloc, file)?;
    let leaves = find_fields(alloc, &schema, &fsm.fields)?;
    let text = leaves_text(alloc, &schema, &leaves)?;
    Ok(Output::Text(text))
}
