//! The words of `trial`.

ghost use Rattle.std.specs.Prelude.{◌≡◌, IfOk, false};
ghost use Rattle.clap.specs.Words.{app_of, found_of, rows_of};
ghost use Rattle.clap.specs.declared.builder.command.Command.{out-Command as fields_of};
ghost use Rattle.dr_commands.specs.Trial.{trial_view};
ghost use Rattle.dr_words.specs.Trial as meant;

use crate::arguments::{needed_number, number_of, number_option};
use crate::serving_words::{serving_of, with_serving};
use clap::ArgMatches;
use dr_commands::commands::Trial;
use dr_commands::{DEFAULT_ROWS, MOST_MADE, MOST_ROWS, MOST_SEED};
use std::alloc::{AllocError, Global};

/// `trial --seed N --records N [--rows N] [--workers N] [--fan N] [--lag N]`.
pub fn trial_command<'a>(alloc: Global) -> Result<clap::Command<'a>, AllocError>
    ensures app { IfOk result (λ command. app_of command ≡ meant.trial_app) }
    ensures local { IfOk result (λ command. (fields_of command).has_globals ≡ false) }
{
    let command = clap::Command::new(alloc, "trial")
        .arg(needed_number(alloc, "seed", 0, MOST_SEED))?
        .arg(needed_number(alloc, "records", 0, MOST_MADE))?
        .arg(number_option(alloc, "rows", 1, MOST_ROWS))?;
    with_serving(alloc, command)
}

/// The values of `trial`.
pub fn trial_of(matches: &ArgMatches<'_>) -> Trial
    ensures { trial_view result ≡ meant.trial_words (rows_of (found_of matches.now)) }
{
    Trial {
        seed: number_of(matches, "seed", 0, MOST_SEED, 0),
        records: number_of(matches, "records", 0, MOST_MADE, 0),
        rows: number_of(matches, "rows", 1, MOST_ROWS, DEFAULT_ROWS),
        serving: serving_of(matches),
    }
}
