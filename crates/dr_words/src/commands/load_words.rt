//! The words of `load`.

ghost use Rattle.std.specs.Prelude.{◌≡◌, IfOk, false};
ghost use Rattle.clap.specs.Words.{app_of, found_of, rows_of};
ghost use Rattle.clap.specs.declared.builder.command.Command.{out-Command as fields_of};
ghost use Rattle.dr_words.specs.Rules.{Answers};
ghost use Rattle.dr_commands.specs.Load.{load_view, version_form};
ghost use Rattle.dr_words.specs.Load as meant;

use crate::arguments::{
    needed_option, needed_words_up_to, number_of, number_option, value_of, values_of,
};
use crate::words_fault::WordsFault;
use clap::ArgMatches;
use dr_commands::commands::Load;
use dr_commands::{
    DEFAULT_ROWS, LATEST_PAGES, MOST_COPIES, MOST_DIRECTORIES, MOST_ROWS, PageVersion,
};
use std::alloc::{AllocError, Global};

/// The files of `load`: its schema and its table.
fn load_files<'a>(alloc: Global) -> Result<clap::Command<'a>, AllocError>
    ensures app { IfOk result (λ command. app_of command ≡ meant.load_files_app) }
    ensures local { IfOk result (λ command. (fields_of command).has_globals ≡ false) }
{
    clap::Command::new(alloc, "load")
        .arg(needed_option(alloc, "schema"))?
        .arg(needed_option(alloc, "table"))
}

/// `load --schema F --table F [--rows N] [--copies K] [--pages V] DIR..`.
pub fn load_command<'a>(alloc: Global) -> Result<clap::Command<'a>, AllocError>
    ensures app { IfOk result (λ command. app_of command ≡ meant.load_app) }
    ensures local { IfOk result (λ command. (fields_of command).has_globals ≡ false) }
{
    load_files(alloc)?
        .arg(number_option(alloc, "rows", 1, MOST_ROWS))?
        .arg(number_option(alloc, "copies", 1, MOST_COPIES))?
        .arg(number_option(alloc, "pages", 1, LATEST_PAGES))?
        .arg(needed_words_up_to(alloc, "dir", MOST_DIRECTORIES))
}

/// The version of data pages that `--pages` names, the first where it isn't given.
fn pages_of(matches: &ArgMatches<'_>) -> PageVersion
    ensures { version_form result ≡ meant.page_form (rows_of (found_of matches.now)) }
{
    if number_of(matches, "pages", 1, LATEST_PAGES, 1) == LATEST_PAGES {
        PageVersion::V2
    } else {
        PageVersion::V1
    }
}

/// The values of `load`.
pub fn load_of(alloc: Global, matches: &ArgMatches<'_>) -> Result<Load, WordsFault>
    ensures { Answers load_view (meant.load_words (rows_of (found_of matches.now))) result }
{
    let schema = value_of(alloc, matches, "schema")?;
    let table = value_of(alloc, matches, "table")?;
    let mut directories = values_of(alloc, matches, "dir")?;
    directories.truncate(MOST_DIRECTORIES);
    let rows = number_of(matches, "rows", 1, MOST_ROWS, DEFAULT_ROWS);
    let copies = number_of(matches, "copies", 1, MOST_COPIES, 1);
    let pages = pages_of(matches);
    Ok(Load {
        schema,
        table,
        rows,
        copies,
        pages,
        directories,
    })
}
