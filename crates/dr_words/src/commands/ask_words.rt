//! The words of `ask`.

ghost use Rattle.std.specs.Prelude.{◌≡◌, IfOk, false};
ghost use Rattle.clap.specs.Words.{app_of, found_of, rows_of};
ghost use Rattle.clap.specs.declared.builder.command.Command.{out-Command as fields_of};
ghost use Rattle.dr_words.specs.Rules.{Answers};
ghost use Rattle.dr_commands.specs.Ask.{ask_view};
ghost use Rattle.dr_words.specs.Ask as meant;

use crate::arguments::{needed_option, needed_word, number_of, number_option, value_of};
use crate::serving_words::{serving_of, with_serving};
use crate::words_fault::WordsFault;
use clap::ArgMatches;
use dr_commands::commands::Ask;
use dr_commands::{DEFAULT_ROWS, MOST_ROWS};
use std::alloc::{AllocError, Global};

/// `ask --schema F [--rows N] [--workers N] [--fan N] [--lag N] QUERY`.
pub fn ask_command<'a>(alloc: Global) -> Result<clap::Command<'a>, AllocError>
    ensures app { IfOk result (λ command. app_of command ≡ meant.ask_app) }
    ensures local { IfOk result (λ command. (fields_of command).has_globals ≡ false) }
{
    let command = clap::Command::new(alloc, "ask")
        .arg(needed_option(alloc, "schema"))?
        .arg(number_option(alloc, "rows", 1, MOST_ROWS))?;
    with_serving(alloc, command)?.arg(needed_word(alloc, "query"))
}

/// The values of `ask`.
pub fn ask_of(alloc: Global, matches: &ArgMatches<'_>) -> Result<Ask, WordsFault>
    ensures { Answers ask_view (meant.ask_words (rows_of (found_of matches.now))) result }
{
    let schema = value_of(alloc, matches, "schema")?;
    let query = value_of(alloc, matches, "query")?;
    let rows = number_of(matches, "rows", 1, MOST_ROWS, DEFAULT_ROWS);
    let serving = serving_of(matches);
    Ok(Ask {
        schema,
        rows,
        serving,
        query,
    })
}
