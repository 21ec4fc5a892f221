//! The words of `fsm`.

ghost use Rattle.std.specs.Prelude.{◌≡◌, IfOk, false};
ghost use Rattle.clap.specs.Words.{app_of, found_of, rows_of};
ghost use Rattle.clap.specs.declared.builder.command.Command.{out-Command as fields_of};
ghost use Rattle.dr_words.specs.Rules.{Answers};
ghost use Rattle.dr_commands.specs.Fsm.{fsm_view};
ghost use Rattle.dr_words.specs.Fsm as meant;

use crate::arguments::{needed_option, needed_words, value_of, values_of};
use crate::words_fault::WordsFault;
use clap::ArgMatches;
use dr_commands::commands::Fsm;
use std::alloc::{AllocError, Global};

/// `fsm --schema F FIELD..`.
pub fn fsm_command<'a>(alloc: Global) -> Result<clap::Command<'a>, AllocError>
    ensures app { IfOk result (λ command. app_of command ≡ meant.fsm_app) }
    ensures local { IfOk result (λ command. (fields_of command).has_globals ≡ false) }
{
    clap::Command::new(alloc, "fsm")
        .arg(needed_option(alloc, "schema"))?
        .arg(needed_words(alloc, "field"))
}

/// The values of `fsm`.
pub fn fsm_of(alloc: Global, matches: &ArgMatches<'_>) -> Result<Fsm, WordsFault>
    ensures { Answers fsm_view (meant.fsm_words (rows_of (found_of matches.now))) result }
{
    let schema = value_of(alloc, matches, "schema")?;
    let fields = values_of(alloc, matches, "field")?;
    Ok(Fsm { schema, fields })
}
