//! The answer of `dump`.

ghost use Rattle.std.specs.Prelude.{◌≡◌, ◌∷◌, [], IfOk, IfErr, IsTrue};
ghost use Rattle.dr_commands.specs.Dump.{dump_meaning, dump_view};
ghost use Rattle.dr_top.specs.Printed.{printed};
ghost use Rattle.dr_top.specs.World.{outcome_on};
ghost use Rattle.dr_top.specs.Answers.{AsksLink};
ghost use Rattle.dr_top.specs.Reading.{HasText};
ghost use Rattle.dr_top.specs.Stops.{StopsAsking};

use crate::fields::find_fields;
use crate::output::Output;
use crate::stop::Stop;
use dr_commands::commands::Dump;
use dr_dump::{Dumped, dump_table};
use dr_outside::Link;
use dr_table::parse_table;
use std::alloc::Global;

/// The text that `dump` prints, of its file.
///
/// Errors: the first refusal: the table, then the FIELD words in order; tablets are left; want of memory.
pub fn answer<L: Link>(
    alloc: Global,
    words: &Dump,
    file: &[u8],
    link: &mut L,
) -> Result<Output, Stop>
    ensures text { IfOk result (λ t. HasText (outcome_on (dump_meaning (dump_view words.now)) file.now [])
        (L.shows link.old ∷ []) (L.shows link.new ∷ []) (printed t)) }
    ensures stops { IfErr result (StopsAsking (outcome_on (dump_meaning (dump_view words.now)) file.now [])
        (L.shows link.old ∷ []) (L.shows link.new ∷ [])) }
    ensures reads { AsksLink (outcome_on (dump_meaning (dump_view words.now)) file.now []) (L.shows link.old)
        (L.shows link.new) }
    ensures same { (L.shows link.new).held ≡ (L.shows link.old).held }
    ensures stays_steady { IsTrue (L.shows link.old).is_steady → IsTrue (L.shows link.new).is_steady }
{
    let table = parse_table(alloc, file)?;
    let fields = find_fields(alloc, &table.schema, &words.fields)?;
    match dump_table(alloc, link, &table, &fields)? {
        Dumped::Lines(text) => Ok(Output::Text(text)),
        Dumped::Left(left) => Err(Stop::Left(left)),
    }
}
