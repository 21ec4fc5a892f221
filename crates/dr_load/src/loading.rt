//! Loading a table.

ghost use Rattle.std.specs.Prelude.{◌≡◌, ◌≢◌, ◌∷◌, [], Some, None, Err, MatchOption, ⊤, IsTrue, IfOk, IfErr, OnOk};
ghost use Rattle.dr_formats.specs.TableFile.{table_text};
ghost use Rattle.dr_formats.specs.Loading as meant;
ghost use Rattle.dr_outside.specs.Faults.{raised};
ghost use Rattle.dr_load.specs.Faults.{refusal_of, is_told};
ghost use Rattle.dr_load.specs.Plans.{plan_view};
ghost use Rattle.dr_input.specs.Taken.{WhereTold, AcceptsRead};
ghost use Rattle.dr_load.specs.Puts.{HasPut, HasFailed};
ghost use Rattle.dr_load.specs.Given.{HasPutFull};
ghost use Rattle.dr_load.specs.Loads.{LeavesPuts, LoadsTable, tablet_part};

use crate::fault::LoadFault;
use crate::file::put_file;
use crate::filling::fill_tablet;
use crate::loaded::Loaded;
use crate::plan::Plan;
use crate::putting::{put_last, put_tablet};
use dr_input::Records;
use dr_outside::{Keeper, Source};
use dr_paths::leaf_paths;
use dr_table::{MOST_TABLETS, table_text_of};
use std::alloc::Global;

/// Loads the records of an input, which is read to its end: each tablet is put on the leaf of each of its copies in
/// order, a full one before the next line is read, and the table file last.
///
/// Errors: the first line that is refused, and then the full tablets before it are put, and no table file; the source
/// failed, and then no line that it gave before is refused, and their full tablets are put; the keeper failed; want of
/// memory.
pub fn load<S: Source, K: Keeper>(
    alloc: Global,
    plan: &Plan<'_, '_, '_>,
    source: &mut S,
    keeper: &mut K,
) -> Result<Loaded, LoadFault>
    ensures accepted { OnOk result (WhereTold (S.shows source.old).left
        (λ input. (meant.load (plan_view plan.now) input).refusal ≡ None)) }
    ensures tablets { IfOk result (λ l. WhereTold (S.shows source.old).left (λ input. l.tablets
        ≡ (meant.load (plan_view plan.now) input).tablets)) }
    ensures records { IfOk result (λ l. WhereTold (S.shows source.old).left (λ input. l.records
        ≡ (meant.load (plan_view plan.now) input).records)) }
    ensures puts { OnOk result (WhereTold (S.shows source.old).left
        (λ input. HasPut (meant.load (plan_view plan.now) input).puts (K.shows keeper.old) (K.shows keeper.new))) }
    ensures table { IfOk result (λ l. LoadsTable (plan_view plan.now) (plan_view plan.now).table l.tablets
        (S.shows source.old).left (K.shows keeper.old).held (K.shows keeper.new).held) }
    ensures end { OnOk result (WhereTold (S.shows source.old).left (λ _. (S.shows source.new).left ≡ Some [])) }

    ensures refused { IfErr result (λ e. MatchOption (refusal_of e) ⊤
        (λ r. WhereTold (S.shows source.old).left (λ input. (meant.load (plan_view plan.now) input).refusal
        ≡ Some r))) }
    ensures stands { IfErr result (λ e. WhereTold (S.shows source.old).left
        (λ input. LeavesPuts (plan_view plan.now) input (K.shows keeper.old) (K.shows keeper.new) e)) }

    ensures accepts { result ≡ Err LoadFault.ReadFault
        → AcceptsRead (plan_view plan.now).schema.fields (meant.most_loaded (plan.now).rows) 0 (S.shows source.old).left
        (S.shows source.new).left }
    ensures given { result ≡ Err LoadFault.ReadFault → HasPutFull (plan_view plan.now) (S.shows source.old).left
        (S.shows source.new).left (K.shows keeper.old) (K.shows keeper.new) }
    ensures source_cause { result ≡ Err LoadFault.ReadFault → (S.shows source.new).faults
        ≡ raised (S.shows source.old).faults }
    ensures source_calm { result ≢ Err LoadFault.ReadFault → (S.shows source.new).faults ≡ (S.shows source.old).faults }
    ensures keeper_cause { result ≡ Err LoadFault.KeepFault → (K.shows keeper.new).faults
        ≡ raised (K.shows keeper.old).faults }
    ensures keeper_calm { result ≢ Err LoadFault.KeepFault → (K.shows keeper.new).faults ≡ (K.shows keeper.old).faults }
    ensures asked { (K.shows keeper.new).asked ≡ (K.shows keeper.old).asked }
    ensures steady { IsTrue (K.shows keeper.old).is_steady → result ≢ Err LoadFault.KeepFault }
    ensures stays_steady { IsTrue (K.shows keeper.old).is_steady → IsTrue (K.shows keeper.new).is_steady }
{
    match load_tablets(alloc, plan, source, keeper) {
        Err(fault) => Err(fault),
        Ok(loaded) => match plan.table {
            None => Ok(loaded),
            Some(path) => match put_table(alloc, plan, keeper, loaded.tablets, path) {
                Ok(()) => Ok(loaded),
                Err(fault) => Err(fault),
            },
        },
    }
}

/// Puts the table file of so many tablets.
fn put_table<K: Keeper>(
    alloc: Global,
    plan: &Plan<'_, '_, '_>,
    keeper: &mut K,
    tablets: u32,
    path: &str,
) -> Result<(), LoadFault>
    ensures put { OnOk result (HasPut (record {
      path = path.now;
      bytes = table_text
          (meant.table_of (plan_view plan.now) tablets);
    } ∷ []) (K.shows keeper.old) (K.shows keeper.new)) }
    ensures broken { IfErr result (λ e. HasFailed (is_told e) []
        (record { path = path.now; bytes = table_text (meant.table_of (plan_view plan.now) tablets) })
        (K.shows keeper.old) (K.shows keeper.new)) }
    ensures cause { result ≡ Err LoadFault.KeepFault → (K.shows keeper.new).faults
        ≡ raised (K.shows keeper.old).faults }
    ensures calm { result ≢ Err LoadFault.KeepFault → (K.shows keeper.new).faults ≡ (K.shows keeper.old).faults }
    ensures read { result ≢ Err LoadFault.ReadFault }
    ensures line { IfErr result (λ e. refusal_of e ≡ None) }
    ensures asked { (K.shows keeper.new).asked ≡ (K.shows keeper.old).asked }
    ensures steady { IsTrue (K.shows keeper.old).is_steady → result ≢ Err LoadFault.KeepFault }
    ensures stays_steady { IsTrue (K.shows keeper.old).is_steady → IsTrue (K.shows keeper.new).is_steady }
{
    match table_text_of(alloc, plan.schema, plan.leaves, plan.copies, tablets) {
        Err(_) => Err(LoadFault::NoMemory),
        Ok(text) => put_file(keeper, path, text.as_bytes()),
    }
}

/// Loads the tablets of an input, which is read to its end.
fn load_tablets<S: Source, K: Keeper>(
    alloc: Global,
    plan: &Plan<'_, '_, '_>,
    source: &mut S,
    keeper: &mut K,
) -> Result<Loaded, LoadFault>
    ensures accepted { OnOk result (WhereTold (S.shows source.old).left
        (λ input. (meant.load (plan_view plan.now) input).refusal ≡ None)) }
    ensures tablets { IfOk result (λ l. WhereTold (S.shows source.old).left (λ input. l.tablets
        ≡ (meant.load (plan_view plan.now) input).tablets)) }
    ensures records { IfOk result (λ l. WhereTold (S.shows source.old).left (λ input. l.records
        ≡ (meant.load (plan_view plan.now) input).records)) }
    ensures puts { OnOk result (WhereTold (S.shows source.old).left
        (λ input. HasPut (tablet_part (plan_view plan.now) input) (K.shows keeper.old) (K.shows keeper.new))) }
    ensures table { IfOk result (λ l. LoadsTable (plan_view plan.now) None l.tablets (S.shows source.old).left
        (K.shows keeper.old).held (K.shows keeper.new).held) }
    ensures end { OnOk result (WhereTold (S.shows source.old).left (λ _. (S.shows source.new).left ≡ Some [])) }
    ensures refused { IfErr result (λ e. MatchOption (refusal_of e) ⊤
        (λ r. WhereTold (S.shows source.old).left (λ input. (meant.load (plan_view plan.now) input).refusal
        ≡ Some r))) }
    ensures stands { IfErr result (λ e. WhereTold (S.shows source.old).left
        (λ input. LeavesPuts (plan_view plan.now) input (K.shows keeper.old) (K.shows keeper.new) e)) }
    ensures accepts { result ≡ Err LoadFault.ReadFault
        → AcceptsRead (plan_view plan.now).schema.fields (meant.most_loaded (plan.now).rows) 0 (S.shows source.old).left
        (S.shows source.new).left }
    ensures given { result ≡ Err LoadFault.ReadFault → HasPutFull (plan_view plan.now) (S.shows source.old).left
        (S.shows source.new).left (K.shows keeper.old) (K.shows keeper.new) }
    ensures source_cause { result ≡ Err LoadFault.ReadFault → (S.shows source.new).faults
        ≡ raised (S.shows source.old).faults }
    ensures source_calm { result ≢ Err LoadFault.ReadFault → (S.shows source.new).faults ≡ (S.shows source.old).faults }
    ensures keeper_cause { result ≡ Err LoadFault.KeepFault → (K.shows keeper.new).faults
        ≡ raised (K.shows keeper.old).faults }
    ensures keeper_calm { result ≢ Err LoadFault.KeepFault → (K.shows keeper.new).faults ≡ (K.shows keeper.old).faults }
    ensures asked { (K.shows keeper.new).asked ≡ (K.shows keeper.old).asked }
    ensures steady { IsTrue (K.shows keeper.old).is_steady → result ≢ Err LoadFault.KeepFault }
    ensures stays_steady { IsTrue (K.shows keeper.old).is_steady → IsTrue (K.shows keeper.new).is_steady }
{
    let most = u64::from(MOST_TABLETS) * u64::from(plan.rows);
    let fields = leaf_paths(alloc, plan.schema)?;
    let mut records = Records::new(alloc, plan.schema, most)?;
    let mut loaded = Loaded {
        tablets: 0,
        records: 0,
    };
    'tablets: loop {
        match fill_tablet(alloc, &fields, &mut records, plan.rows, source) {
            Err(fault) => return Err(fault),
            Ok(filled) if filled.ended => match put_last(alloc, plan, keeper, loaded, &filled) {
                Ok(loaded) => return Ok(loaded),
                Err(fault) => return Err(fault),
            },
            Ok(filled) => match put_tablet(alloc, plan, keeper, loaded.tablets, &filled) {
                Ok(()) => {}
                Err(fault) => return Err(fault),
            },
        }
        loaded = Loaded {
            tablets: loaded.tablets + 1,
            records: loaded.records + u64::from(plan.rows),
        };
    }
}
