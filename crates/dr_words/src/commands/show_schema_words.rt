//! The words of `schema`.

ghost use Rattle.std.specs.Prelude.{◌≡◌, IfOk, false};
ghost use Rattle.clap.specs.Words.{app_of, found_of, rows_of};
ghost use Rattle.clap.specs.declared.builder.command.Command.{out-Command as fields_of};
ghost use Rattle.dr_words.specs.Rules.{Answers};
ghost use Rattle.dr_commands.specs.ShowSchema.{show_schema_view};
ghost use Rattle.dr_words.specs.ShowSchema as meant;

use crate::arguments::{needed_word, value_of};
use crate::words_fault::WordsFault;
use clap::ArgMatches;
use dr_commands::commands::ShowSchema;
use std::alloc::{AllocError, Global};

/// `schema FILE`.
pub fn show_schema_command<'a>(alloc: Global) -> Result<clap::Command<'a>, AllocError>
    ensures app { IfOk result (λ command. app_of command ≡ meant.show_schema_app) }
    ensures local { IfOk result (λ command. (fields_of command).has_globals ≡ false) }
{
    clap::Command::new(alloc, "schema").arg(needed_word(alloc, "file"))
}

/// The values of `schema`.
pub fn show_schema_of(alloc: Global, matches: &ArgMatches<'_>) -> Result<ShowSchema, WordsFault>
    ensures { Answers show_schema_view (meant.show_schema_words (rows_of (found_of matches.now))) result }
{
    let file = value_of(alloc, matches, "file")?;
    Ok(ShowSchema { file })
}
