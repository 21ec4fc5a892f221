//! The words of `explain`.

ghost use Rattle.std.specs.Prelude.{◌≡◌, IfOk, false};
ghost use Rattle.clap.specs.Words.{app_of, found_of, rows_of};
ghost use Rattle.clap.specs.declared.builder.command.Command.{out-Command as fields_of};
ghost use Rattle.dr_words.specs.Rules.{Answers};
ghost use Rattle.dr_commands.specs.Explain.{explain_view};
ghost use Rattle.dr_words.specs.Explain as meant;

use crate::arguments::{needed_option, needed_word, value_of};
use crate::words_fault::WordsFault;
use clap::ArgMatches;
use dr_commands::commands::Explain;
use std::alloc::{AllocError, Global};

/// `explain --schema F QUERY`.
pub fn explain_command<'a>(alloc: Global) -> Result<clap::Command<'a>, AllocError>
    ensures app { IfOk result (λ command. app_of command ≡ meant.explain_app) }
    ensures local { IfOk result (λ command. (fields_of command).has_globals ≡ false) }
{
    clap::Command::new(alloc, "explain")
        .arg(needed_option(alloc, "schema"))?
        .arg(needed_word(alloc, "query"))
}

/// The values of `explain`.
pub fn explain_of(alloc: Global, matches: &ArgMatches<'_>) -> Result<Explain, WordsFault>
    ensures { Answers explain_view (meant.explain_words (rows_of (found_of matches.now))) result }
{
    let schema = value_of(alloc, matches, "schema")?;
    let query = value_of(alloc, matches, "query")?;
    Ok(Explain { schema, query })
}
