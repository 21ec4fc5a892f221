//! The words of how a query is served.

ghost use Rattle.std.specs.Prelude.{◌≡◌, IfOk, false, fold};
ghost use Rattle.clap.specs.Words.{app_of, found_of, rows_of};
ghost use Rattle.clap.specs.declared.builder.command.Command.{out-Command as fields_of};
ghost use Rattle.clap.specs.Words.{with_rule};
ghost use Rattle.dr_commands.specs.Serving.{serving_view};
ghost use Rattle.dr_words.specs.Serving as meant;

use crate::arguments::{number_of, number_option};
use clap::ArgMatches;
use dr_commands::{
    DEFAULT_FAN, DEFAULT_LAG, DEFAULT_WORKERS, LEAST_FAN, MOST_FAN, MOST_LAG, MOST_WORKERS, Serving,
};
use std::alloc::{AllocError, Global};

/// A command that takes `[--workers N] [--fan N] [--lag N]` too.
pub fn with_serving<'a>(
    alloc: Global,
    command: clap::Command<'a>,
) -> Result<clap::Command<'a>, AllocError>
    requires local { (fields_of command).has_globals ≡ false }
    ensures app { IfOk result (λ longer. app_of longer ≡ fold with_rule (app_of command.entry) meant.serving_rules) }
    ensures local { IfOk result (λ longer. (fields_of longer).has_globals ≡ false) }
{
    command
        .arg(number_option(alloc, "workers", 1, MOST_WORKERS))?
        .arg(number_option(alloc, "fan", LEAST_FAN, MOST_FAN))?
        .arg(number_option(alloc, "lag", 1, MOST_LAG))
}

/// The values of `[--workers N] [--fan N] [--lag N]`.
pub fn serving_of(matches: &ArgMatches<'_>) -> Serving
    ensures { serving_view result ≡ meant.serving_words (rows_of (found_of matches.now)) }
{
    Serving {
        workers: number_of(matches, "workers", 1, MOST_WORKERS, DEFAULT_WORKERS),
        fan: number_of(matches, "fan", LEAST_FAN, MOST_FAN, DEFAULT_FAN),
        lag: number_of(matches, "lag", 1, MOST_LAG, DEFAULT_LAG),
    }
}
