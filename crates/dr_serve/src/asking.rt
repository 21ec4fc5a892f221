//! Asking a query of an input.

ghost use Rattle.std.specs.Prelude.{◌≡◌, ◌≢◌, ◌<◌, ◌≤◌, [], Some, None, Err, MatchOption, ⊤, IfOk, IfErr, OnOk, length, string_bytes};
ghost use Rattle.dr_meaning.specs.Ask.{most_asked};
ghost use Rattle.dr_meaning.specs.Lines.{records_of};
ghost use Rattle.dr_nested.specs.SchemaView.{schema_view};
ghost use Rattle.dr_outside.specs.Faults.{raised};
ghost use Rattle.dr_sub.specs.Texts.{ArePlansOver, ForNested};
ghost use Rattle.dr_load.specs.Faults.{refusal_of};
ghost use Rattle.dr_input.specs.Taken.{WhereTold, AcceptsRead};
ghost use Rattle.dr_serve.specs.Asked.{IsAnswerTo};

use crate::ServeOptions;
use crate::shelf_links::lent;
use crate::steady::answer_steady;
use dr_load::{LoadFault, Plan as LoadPlan, load};
use dr_memory::NoMemory;
use dr_nested::Schema;
use dr_outside::{Shelf, Source};
use dr_page::PageForm;
use dr_sub::NestedPlan;
use dr_table::Table;
use std::alloc::Global;
use std::sync::Wait;
use std::thread::Threads;

/// The one directory of a table in memory.
fn one_leaf(alloc: Global) -> Result<Vec<String>, NoMemory>
    ensures { IfOk result (λ leaves. length leaves.items ≡ 1) }
{
    let mut leaves = Vec::new(alloc);
    leaves.push(String::from_str(alloc, "memory")?)?;
    Ok(leaves)
}

/// What the query of some plans prints of the records of an input, which is read to its end. They are loaded into memory
/// as a table, `rows` of them to a tablet, and the answer is that of the table, served so: each worker has a link of its
/// own to the one shelf.
///
/// Errors: the first line that is refused, as is each past 4,096 times `rows`; the source failed, and no whole line
/// that it gave before is refused; want of memory. Nothing else: no tablet of the table is left, whether the source
/// tells its bytes or not.
pub fn ask_input<R: Threads + Wait + Sync, S: Source>(
    rt: &R,
    alloc: Global,
    schema: Schema,
    plans: &NestedPlan,
    rows: u32,
    options: &ServeOptions,
    source: &mut S,
) -> Result<String, LoadFault>
    requires planned { ArePlansOver (schema_view schema) plans.now }
    requires has_rows { 0 < rows }
    requires few_rows { rows ≤ 1000000 }
    requires workers { 0 < (options.now).workers }
    requires fan { 1 ≤ (options.now).fan }
    requires least { (options.now).least ≡ 100 }
    ensures text { IfOk result (λ t. ForNested (schema_view schema) plans.now
        (λ n. WhereTold (S.shows source.old).left (IsAnswerTo (schema_view schema) n rows (string_bytes t)))) }
    ensures end { OnOk result (WhereTold (S.shows source.old).left (λ _. (S.shows source.new).left ≡ Some [])) }
    ensures refused { IfErr result (λ e. MatchOption (refusal_of e) ⊤
        (λ r. WhereTold (S.shows source.old).left
        (λ input. records_of (schema_view schema).fields (most_asked rows) input ≡ Err r))) }
    ensures accepts { result ≡ Err LoadFault.ReadFault
        → AcceptsRead (schema_view schema).fields (most_asked rows) 0 (S.shows source.old).left
        (S.shows source.new).left }
    ensures source_cause { result ≡ Err LoadFault.ReadFault → (S.shows source.new).faults
        ≡ raised (S.shows source.old).faults }
    ensures source_calm { result ≢ Err LoadFault.ReadFault → (S.shows source.new).faults ≡ (S.shows source.old).faults }
    ensures never_keeper { result ≢ Err LoadFault.KeepFault }
{
    let leaves = one_leaf(alloc)?;
    let mut shelf = Shelf::new(alloc, Vec::new(alloc));
    let place = LoadPlan {
        schema: &schema,
        leaves: &leaves,
        copies: 1,
        rows,
        table: None,
        form: PageForm::V1,
    };
    let tablets = match load(alloc, &place, source, &mut shelf) {
        Ok(loaded) => loaded.tablets,
        Err(fault) => return Err(fault),
    };
    let table = Table {
        schema,
        leaves,
        copies: 1,
        tablets,
    };
    let mut links = lent(alloc, &shelf, options.workers)?;
    let text = answer_steady(rt, alloc, &mut links, &table, plans, options)?;
    Ok(text)
}
