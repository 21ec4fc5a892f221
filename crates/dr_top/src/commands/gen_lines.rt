//! The answer of `gen`.

ghost use Rattle.std.specs.Prelude.{◌≡◌, [], IfOk, IfErr};
ghost use Rattle.dr_commands.specs.Meaning.{done};
ghost use Rattle.dr_commands.specs.Gen.{gen_meaning, gen_view};
ghost use Rattle.dr_top.specs.Printed.{printed};
ghost use Rattle.dr_top.specs.World.{outcome_on};

use crate::output::Output;
use crate::stop::Stop;
use dr_commands::commands::Gen;
use dr_gen::GenSource;
use std::alloc::Global;

/// The lines that `gen` prints, of which none is made yet.
///
/// Errors: want of memory alone, for the room of one line.
pub fn answer(alloc: Global, words: &Gen) -> Result<Output, Stop>
    ensures text { IfOk result (λ t. outcome_on (gen_meaning (gen_view words.now)) [] [] ≡ done (printed t) []) }
    ensures memory { IfErr result (λ stop. stop ≡ Stop.NoMemory) }
{
    let lines = GenSource::new(alloc, u64::from(words.seed), u64::from(words.records))?;
    Ok(Output::Made(lines))
}
