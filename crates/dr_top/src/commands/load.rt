//! The answer of `load`.

ghost use Rattle.std.specs.Prelude.{◌≡◌, [], true, IfOk, IfErr, OnOk};
ghost use Rattle.dr_input.specs.Taken.{WhereTold};
ghost use Rattle.dr_commands.specs.Load.{load_meaning, load_view, version_form};
ghost use Rattle.dr_page.specs.Views.{page_form_view};
ghost use Rattle.dr_top.specs.Printed.{printed};
ghost use Rattle.dr_top.specs.World.{IsFileOf, Opens, outcome_on, lent};
ghost use Rattle.dr_top.specs.Keeping.{IsDoneSo};
ghost use Rattle.dr_top.specs.Stops.{StopsWith, IsReadBy};

use crate::output::Output;
use crate::stop::Stop;
use dr_commands::PageVersion;
use dr_commands::commands::Load;
use dr_load::{Plan, check_words, load, loaded_line};
use dr_nested::parse_schema;
use dr_outside::{Keeper, Source};
use dr_page::PageForm;
use std::alloc::Global;

/// The form of the data pages of this version.
fn page_form(version: PageVersion) -> PageForm
    ensures { page_form_view result ≡ version_form version }
{
    match version {
        PageVersion::V1 => PageForm::V1,
        PageVersion::V2 => PageForm::V2,
    }
}

/// The text that `load` prints, of its file and the input. The files are put before it.
///
/// Errors: the first refusal: the schema, the directories, the number of copies, then the input's lines; the keeper or
/// the source failed; want of memory.
pub fn answer<S: Source, K: Keeper>(
    alloc: Global,
    words: &Load,
    file: &[u8],
    source: &mut S,
    keeper: &mut K,
) -> Result<Output, Stop>
    requires file { IsFileOf (load_meaning (load_view words.now)) (K.shows keeper.old) file.now }
    ensures text { IfOk result (λ t. WhereTold (S.shows source.old).left (λ lines. IsDoneSo (printed t)
        (K.shows keeper.old) (K.shows keeper.new) (outcome_on (load_meaning (load_view words.now)) file.now lines))) }
    ensures opened { OnOk result (Opens (outcome_on (load_meaning (load_view words.now)) file.now)) }
    ensures read { OnOk result (IsReadBy true (S.shows source.old) (S.shows source.new)) }
    ensures source_calm { OnOk result ((S.shows source.new).faults ≡ (S.shows source.old).faults) }
    ensures keeper_calm { OnOk result ((K.shows keeper.new).faults ≡ (K.shows keeper.old).faults) }
    ensures stops { IfErr result (StopsWith (load_meaning (load_view words.now))
        (lent (S.shows source.old) (K.shows keeper.old) []) (lent (S.shows source.new) (K.shows keeper.new) [])) }
    ensures asked { (K.shows keeper.new).asked ≡ (K.shows keeper.old).asked }
{
    let schema = parse_schema(alloc, file)?;
    check_words(&words.directories, words.copies)?;
    let plan = Plan {
        schema: &schema,
        leaves: &words.directories,
        copies: words.copies,
        rows: words.rows,
        table: Some(words.table.as_str()),
        form: page_form(words.pages),
    };
    let loaded = load(alloc, &plan, source, keeper)?;
    let line = loaded_line(alloc, loaded.records, loaded.tablets)?;
    Ok(Output::Text(line))
}
