//! The command line of each command, and of all of them.

ghost use Rattle.std.specs.Prelude.{◌≡◌, IfOk, false};
ghost use Rattle.clap.specs.Words.{App, app_of, found_of, rows_of, subcommand_rows_of, with_subcommand};
ghost use Rattle.clap.specs.declared.builder.command.Command.{out-Command as fields_of};
ghost use Rattle.dr_commands.specs.Commands.{command_view};
ghost use Rattle.dr_words.specs.Rules.{Answers};
ghost use Rattle.dr_words.specs.Words as meant;

mod ask_words;
mod dump_words;
mod explain_words;
mod fsm_words;
mod gen_words;
mod load_words;
mod query_words;
mod session_words;
mod show_schema_words;
mod stripe_words;
mod trial_words;

use crate::commands::ask_words::{ask_command, ask_of};
use crate::commands::dump_words::{dump_command, dump_of};
use crate::commands::explain_words::{explain_command, explain_of};
use crate::commands::fsm_words::{fsm_command, fsm_of};
use crate::commands::gen_words::{gen_command, gen_of};
use crate::commands::load_words::{load_command, load_of};
use crate::commands::query_words::{query_command, query_of};
use crate::commands::session_words::{session_command, session_of};
use crate::commands::show_schema_words::{show_schema_command, show_schema_of};
use crate::commands::stripe_words::{stripe_command, stripe_of};
use crate::commands::trial_words::{trial_command, trial_of};
use crate::words_fault::WordsFault;
use clap::ArgMatches;
use dr_commands::Command;
use std::alloc::{AllocError, Global};

/// What is printed where the words are refused.
pub const USAGE: &str =
    "usage: dremel load|query|ask|dump|stripe|fsm|schema|explain|gen|trial|session ..\n";

/// The command before its subcommands join it. No word asks for help: those that would are refused as unknown.
fn bare_command<'a>(alloc: Global) -> clap::Command<'a>
    ensures { app_of result ≡ meant.bare_app }
{
    clap::Command::new(alloc, "dremel")
        .disable_help_flag(true)
        .disable_help_subcommand(true)
        .subcommand_required(true)
}

/// A command that one more subcommand joins.
fn with_command<'a>(
    command: clap::Command<'a>,
    more: Result<clap::Command<'a>, AllocError>,
) -> Result<clap::Command<'a>, AllocError>
    requires local { IfOk more (λ subcommand. (fields_of subcommand).has_globals ≡ false) }
    ensures { (app : App) → IfOk more.entry (λ subcommand. app_of subcommand ≡ app)
        → IfOk result (λ longer. app_of longer ≡ with_subcommand (app_of command.entry) app.top) }
{
    command.subcommand(more?)
}

/// The whole command.
pub fn dremel_command<'a>(alloc: Global) -> Result<clap::Command<'a>, AllocError>
    ensures { IfOk result (λ command. app_of command ≡ meant.dremel_app) }
{
    let command = with_command(bare_command(alloc), load_command(alloc))?;
    let command = with_command(command, query_command(alloc))?;
    let command = with_command(command, ask_command(alloc))?;
    let command = with_command(command, dump_command(alloc))?;
    let command = with_command(command, stripe_command(alloc))?;
    let command = with_command(command, fsm_command(alloc))?;
    let command = with_command(command, show_schema_command(alloc))?;
    let command = with_command(command, explain_command(alloc))?;
    let command = with_command(command, gen_command(alloc))?;
    let command = with_command(command, trial_command(alloc))?;
    with_command(command, session_command(alloc))
}

/// The command of a subcommand's name and its values.
///
/// Errors: no subcommand has the name; want of memory.
fn named_command(alloc: Global, name: &str, values: &ArgMatches<'_>) -> Result<Command, WordsFault>
    ensures { Answers command_view (meant.words_of name.now (rows_of (found_of values.now))) result }
{
    match name {
        "load" => Ok(Command::Load(load_of(alloc, values)?)),
        "query" => Ok(Command::Query(query_of(alloc, values)?)),
        "ask" => Ok(Command::Ask(ask_of(alloc, values)?)),
        "dump" => Ok(Command::Dump(dump_of(alloc, values)?)),
        "stripe" => Ok(Command::Stripe(stripe_of(alloc, values)?)),
        "fsm" => Ok(Command::Fsm(fsm_of(alloc, values)?)),
        "schema" => Ok(Command::ShowSchema(show_schema_of(alloc, values)?)),
        "explain" => Ok(Command::Explain(explain_of(alloc, values)?)),
        "gen" => Ok(Command::Gen(gen_of(values))),
        "trial" => Ok(Command::Trial(trial_of(values))),
        "session" => Ok(Command::Session(session_of(alloc, values)?)),
        _ => Err(WordsFault::Usage),
    }
}

/// The subcommand that clap met, with its values.
pub fn command_of(alloc: Global, matches: &ArgMatches<'_>) -> Result<Command, WordsFault>
    ensures { Answers command_view (meant.words_in (subcommand_rows_of matches.now)) result }
{
    match matches.subcommand() {
        Some((name, values)) => named_command(alloc, name, values),
        None => Err(WordsFault::Usage),
    }
}
