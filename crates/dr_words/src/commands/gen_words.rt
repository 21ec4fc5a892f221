//! The words of `gen`.

ghost use Rattle.std.specs.Prelude.{◌≡◌, IfOk, false};
ghost use Rattle.clap.specs.Words.{app_of, found_of, rows_of};
ghost use Rattle.clap.specs.declared.builder.command.Command.{out-Command as fields_of};
ghost use Rattle.dr_commands.specs.Gen.{gen_view};
ghost use Rattle.dr_words.specs.Gen as meant;

use crate::arguments::{needed_number, number_of};
use clap::ArgMatches;
use dr_commands::commands::Gen;
use dr_commands::{MOST_MADE, MOST_SEED};
use std::alloc::{AllocError, Global};

/// `gen --seed N --records N`.
pub fn gen_command<'a>(alloc: Global) -> Result<clap::Command<'a>, AllocError>
    ensures app { IfOk result (λ command. app_of command ≡ meant.gen_app) }
    ensures local { IfOk result (λ command. (fields_of command).has_globals ≡ false) }
{
    clap::Command::new(alloc, "gen")
        .arg(needed_number(alloc, "seed", 0, MOST_SEED))?
        .arg(needed_number(alloc, "records", 0, MOST_MADE))
}

/// The values of `gen`.
pub fn gen_of(matches: &ArgMatches<'_>) -> Gen
    ensures { gen_view result ≡ meant.gen_words (rows_of (found_of matches.now)) }
{
    Gen {
        seed: number_of(matches, "seed", 0, MOST_SEED, 0),
        records: number_of(matches, "records", 0, MOST_MADE, 0),
    }
}
