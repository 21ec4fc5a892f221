//! The answer of `session`.

ghost use Rattle.std.specs.Prelude.{◌≡◌, ℕ, List, IfOk, IfErr};
ghost use Rattle.dr_sub_meaning.specs.Session.{spoken};
ghost use Rattle.dr_nested.specs.SchemaView.{schema_view};
ghost use Rattle.dr_commands.specs.Session.{session_meaning, session_outcome, session_view};
ghost use Rattle.dr_top.specs.World.{outcome_on};
ghost use Rattle.dr_top.specs.Stops.{StopsEarly};

use crate::stop::Stop;
use dr_commands::commands::Session;
use dr_nested::{Schema, parse_schema};
use std::alloc::Global;

/// The schema of a session, of its file.
///
/// Errors: the schema is refused; want of memory.
pub fn answer(alloc: Global, session: &Session, file: &[u8]) -> Result<Schema, Stop>
    ensures speaks { IfOk result (λ s. (input : List ℕ)
        → outcome_on (session_meaning (session_view session.now)) file.now input
        ≡ session_outcome (spoken (schema_view s) input)) }
    ensures stops { IfErr result (StopsEarly (outcome_on (session_meaning (session_view session.now)) file.now)) }
{
    Ok(parse_schema(alloc, file)?)
}
