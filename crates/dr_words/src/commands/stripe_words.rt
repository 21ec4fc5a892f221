//! The words of `stripe`.

ghost use Rattle.std.specs.Prelude.{◌≡◌, IfOk, false};
ghost use Rattle.clap.specs.Words.{app_of, found_of, rows_of};
ghost use Rattle.clap.specs.declared.builder.command.Command.{out-Command as fields_of};
ghost use Rattle.dr_words.specs.Rules.{Answers};
ghost use Rattle.dr_commands.specs.Stripe.{stripe_view};
ghost use Rattle.dr_words.specs.Stripe as meant;

use crate::arguments::{needed_option, needed_word, value_of};
use crate::words_fault::WordsFault;
use clap::ArgMatches;
use dr_commands::commands::Stripe;
use std::alloc::{AllocError, Global};

/// `stripe --schema F FIELD`.
pub fn stripe_command<'a>(alloc: Global) -> Result<clap::Command<'a>, AllocError>
    ensures app { IfOk result (λ command. app_of command ≡ meant.stripe_app) }
    ensures local { IfOk result (λ command. (fields_of command).has_globals ≡ false) }
{
    clap::Command::new(alloc, "stripe")
        .arg(needed_option(alloc, "schema"))?
        .arg(needed_word(alloc, "field"))
}

/// The values of `stripe`.
pub fn stripe_of(alloc: Global, matches: &ArgMatches<'_>) -> Result<Stripe, WordsFault>
    ensures { Answers stripe_view (meant.stripe_words (rows_of (found_of matches.now))) result }
{
    let schema = value_of(alloc, matches, "schema")?;
    let field = value_of(alloc, matches, "field")?;
    Ok(Stripe { schema, field })
}
