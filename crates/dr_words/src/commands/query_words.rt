//! The words of `query`.

ghost use Rattle.std.specs.Prelude.{◌≡◌, IfOk, false};
ghost use Rattle.clap.specs.Words.{app_of, found_of, rows_of};
ghost use Rattle.clap.specs.declared.builder.command.Command.{out-Command as fields_of};
ghost use Rattle.dr_words.specs.Rules.{Answers};
ghost use Rattle.dr_commands.specs.Query.{query_view};
ghost use Rattle.dr_words.specs.Query as meant;

use crate::arguments::{needed_option, needed_word, number_of, number_option, value_of};
use crate::serving_words::{serving_of, with_serving};
use crate::words_fault::WordsFault;
use clap::ArgMatches;
use dr_commands::commands::Query;
use dr_commands::{DEFAULT_SHARE, MOST_SHARE};
use std::alloc::{AllocError, Global};

/// `query --table F [--workers N] [--fan N] [--lag N] [--least P] QUERY`.
pub fn query_command<'a>(alloc: Global) -> Result<clap::Command<'a>, AllocError>
    ensures app { IfOk result (λ command. app_of command ≡ meant.query_app) }
    ensures local { IfOk result (λ command. (fields_of command).has_globals ≡ false) }
{
    let command = clap::Command::new(alloc, "query").arg(needed_option(alloc, "table"))?;
    with_serving(alloc, command)?
        .arg(number_option(alloc, "least", 1, MOST_SHARE))?
        .arg(needed_word(alloc, "query"))
}

/// The values of `query`.
pub fn query_of(alloc: Global, matches: &ArgMatches<'_>) -> Result<Query, WordsFault>
    ensures { Answers query_view (meant.query_words (rows_of (found_of matches.now))) result }
{
    let table = value_of(alloc, matches, "table")?;
    let query = value_of(alloc, matches, "query")?;
    let serving = serving_of(matches);
    let least = number_of(matches, "least", 1, MOST_SHARE, DEFAULT_SHARE);
    Ok(Query {
        table,
        serving,
        least,
        query,
    })
}
