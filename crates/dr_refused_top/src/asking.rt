//! Answers on inputs.

ghost use Rattle.std.specs.Prelude.{◌≡◌, ◌≢◌, ◌<◌, ◌≤◌, [], Some, Err, MatchOption, ⊤, IfOk, IfErr, OnOk, string_bytes};
ghost use Rattle.dr_meaning.specs.Ask.{most_asked};
ghost use Rattle.dr_meaning.specs.Lines.{records_of};
ghost use Rattle.dr_nested.specs.SchemaView.{schema_view};
ghost use Rattle.dr_outside.specs.Faults.{raised};
ghost use Rattle.dr_sub.specs.Texts.{ArePlansOver, ForNested};
ghost use Rattle.dr_load.specs.Faults.{refusal_of};
ghost use Rattle.dr_input.specs.Taken.{WhereTold, AcceptsRead};
ghost use Rattle.dr_serve.specs.Asked.{IsAnswerTo};

use dr_load::LoadFault;
use dr_nested::Schema;
use dr_outside::Source;
use dr_serve::{ServeOptions, ask_input};
use dr_sub::NestedPlan;
use std::alloc::Global;
use std::sync::Wait;
use std::thread::Threads;

/// As `ask_input`.
pub fn answer_on<R: Threads + Wait + Sync, S: Source>(
    rt: &R,
    alloc: Global,
    schema: Schema,
    plans: &NestedPlan,
    rows: u32,
    options: &ServeOptions,
    source: &mut S,
) -> Result<String, LoadFault>
    requires planned { ArePlansOver (schema_view schema) plans.now }
    requires has_rows { 0 < rows }
    requires few_rows { rows ≤ 1000000 }
    requires workers { 0 < (options.now).workers }
    requires fan { 1 ≤ (options.now).fan }
    requires least { (options.now).least ≡ 100 }
    ensures text { IfOk result (λ t. ForNested (schema_view schema) plans.now
        (λ n. WhereTold (S.shows source.old).left (IsAnswerTo (schema_view schema) n rows (string_bytes t)))) }
    ensures end { OnOk result (WhereTold (S.shows source.old).left (λ _. (S.shows source.new).left ≡ Some [])) }
    ensures refused { IfErr result (λ e. MatchOption (refusal_of e) ⊤
        (λ r. WhereTold (S.shows source.old).left (λ input. records_of (schema_view schema).fields (most_asked rows)
        input ≡ Err r))) }
    ensures accepts { result ≡ Err LoadFault.ReadFault
        → AcceptsRead (schema_view schema).fields (most_asked rows) 0 (S.shows source.old).left
        (S.shows source.new).left }
    ensures source_cause { result ≡ Err LoadFault.ReadFault
        → (S.shows source.new).faults ≡ raised (S.shows source.old).faults }
    ensures source_calm { result ≢ Err LoadFault.ReadFault → (S.shows source.new).faults ≡ (S.shows source.old).faults }
    ensures never_keeper { result ≢ Err LoadFault.KeepFault }
{
    ask_input(rt, alloc, schema, plans, rows, options, source)
}
