//! The answer of `schema`.

ghost use Rattle.std.specs.Prelude.{◌≡◌, string_bytes, IfOk, IfErr, IsTrue};
ghost use Rattle.dr_commands.specs.Meaning.{looks_at};
ghost use Rattle.dr_top.specs.Printed.{printed};
ghost use Rattle.dr_top.specs.Answers.{AsksLink};
ghost use Rattle.dr_top.specs.Reading.{IsLookedAt};
ghost use Rattle.dr_top.specs.Stops.{SchemaStops};

use crate::output::Output;
use crate::stop::Stop;
use dr_commands::commands::ShowSchema;
use dr_file::schema_of;
use dr_nested::schema_text;
use dr_outside::Link;
use std::alloc::Global;

/// The text that `schema` prints.
///
/// Errors: the cause for which the file gives no schema; want of memory.
pub fn answer<L: Link>(alloc: Global, show: &ShowSchema, link: &mut L) -> Result<Output, Stop>
    ensures text { IfOk result (λ t. IsLookedAt (string_bytes (show.now).file) (L.shows link.old) (L.shows link.new)
        (printed t)) }
    ensures stops { IfErr result (SchemaStops (string_bytes (show.now).file) (L.shows link.old) (L.shows link.new)) }
    ensures reads { AsksLink (looks_at (string_bytes (show.now).file)) (L.shows link.old) (L.shows link.new) }
    ensures same { (L.shows link.new).held ≡ (L.shows link.old).held }
    ensures stays_steady { IsTrue (L.shows link.old).is_steady → IsTrue (L.shows link.new).is_steady }
{
    let schema = schema_of(alloc, link, show.file.as_str())?;
    Ok(Output::Text(schema_text(alloc, &schema)?))
}
