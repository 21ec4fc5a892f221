//! The words of `session`.

ghost use Rattle.std.specs.Prelude.{◌≡◌, IfOk, false};
ghost use Rattle.clap.specs.Words.{app_of, found_of, rows_of};
ghost use Rattle.clap.specs.declared.builder.command.Command.{out-Command as fields_of};
ghost use Rattle.dr_words.specs.Rules.{Answers};
ghost use Rattle.dr_commands.specs.Session.{session_view};
ghost use Rattle.dr_words.specs.Session as meant;

use crate::arguments::{needed_option, value_of};
use crate::words_fault::WordsFault;
use clap::ArgMatches;
use dr_commands::commands::Session;
use std::alloc::{AllocError, Global};

/// `session --schema F`.
pub fn session_command<'a>(alloc: Global) -> Result<clap::Command<'a>, AllocError>
    ensures app { IfOk result (λ command. app_of command ≡ meant.session_app) }
    ensures local { IfOk result (λ command. (fields_of command).has_globals ≡ false) }
{
    clap::Command::new(alloc, "session").arg(needed_option(alloc, "schema"))
}

/// The values of `session`.
pub fn session_of(alloc: Global, matches: &ArgMatches<'_>) -> Result<Session, WordsFault>
    ensures { Answers session_view (meant.session_words (rows_of (found_of matches.now))) result }
{
    let schema = value_of(alloc, matches, "schema")?;
    Ok(Session { schema })
}
