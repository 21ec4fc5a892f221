//! The words of `dump`.

ghost use Rattle.std.specs.Prelude.{◌≡◌, IfOk, false};
ghost use Rattle.clap.specs.Words.{app_of, found_of, rows_of};
ghost use Rattle.clap.specs.declared.builder.command.Command.{out-Command as fields_of};
ghost use Rattle.dr_words.specs.Rules.{Answers};
ghost use Rattle.dr_commands.specs.Dump.{dump_view};
ghost use Rattle.dr_words.specs.Dump as meant;

use crate::arguments::{needed_option, needed_words, value_of, values_of};
use crate::words_fault::WordsFault;
use clap::ArgMatches;
use dr_commands::commands::Dump;
use std::alloc::{AllocError, Global};

/// `dump --table F FIELD..`.
pub fn dump_command<'a>(alloc: Global) -> Result<clap::Command<'a>, AllocError>
    ensures app { IfOk result (λ command. app_of command ≡ meant.dump_app) }
    ensures local { IfOk result (λ command. (fields_of command).has_globals ≡ false) }
{
    clap::Command::new(alloc, "dump")
        .arg(needed_option(alloc, "table"))?
        .arg(needed_words(alloc, "field"))
}

/// The values of `dump`.
pub fn dump_of(alloc: Global, matches: &ArgMatches<'_>) -> Result<Dump, WordsFault>
    ensures { Answers dump_view (meant.dump_words (rows_of (found_of matches.now))) result }
{
    let table = value_of(alloc, matches, "table")?;
    let fields = values_of(alloc, matches, "field")?;
    Ok(Dump { table, fields })
}
