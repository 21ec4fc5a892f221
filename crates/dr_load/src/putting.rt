//! Putting tablets.

ghost use Rattle.std.specs.Prelude.{◌≡◌, ◌≢◌, ◌+◌, ◌≤◌, List, length, IsTrue, IfOk, IfErr, OnOk, Err, None};
ghost use Rattle.dr_meaning.specs.Record.{Node};
ghost use Rattle.dr_formats.specs.Loading.{tablet_puts, puts_from};
ghost use Rattle.dr_write.specs.Files.{AreColumnsFor};
ghost use Rattle.dr_outside.specs.Faults.{raised};
ghost use Rattle.dr_load.specs.Faults.{refusal_of};
ghost use Rattle.dr_load.specs.Filled.{OverFilled};
ghost use Rattle.dr_load.specs.Plans.{plan_view};
ghost use Rattle.dr_load.specs.Puts.{HasPut};
ghost use Rattle.dr_load.specs.Loads.{StopsPutting, last_tablets};

use crate::copies::put_copies;
use crate::fault::LoadFault;
use crate::filled::Filled;
use crate::loaded::Loaded;
use crate::plan::Plan;
use dr_outside::Keeper;
use dr_write::write_file_as;
use std::alloc::Global;

/// Puts a tablet on the leaf of each copy, in order.
pub(crate) fn put_tablet<K: Keeper>(
    alloc: Global,
    plan: &Plan<'_, '_, '_>,
    keeper: &mut K,
    tablet: u32,
    filled: &Filled,
) -> Result<(), LoadFault>
    requires { AreColumnsFor (plan_view plan.now).schema (filled.now).columns.items }
    ensures put { OverFilled plan.now filled.now (λ R.
        OnOk result (HasPut (tablet_puts (plan_view plan.now) tablet R) (K.shows keeper.old) (K.shows keeper.new))) }
    ensures stops { OverFilled plan.now filled.now (λ R. IfErr result
        (StopsPutting (tablet_puts (plan_view plan.now) tablet R) (K.shows keeper.old) (K.shows keeper.new))) }
    ensures cause { result ≡ Err LoadFault.KeepFault → (K.shows keeper.new).faults
        ≡ raised (K.shows keeper.old).faults }
    ensures calm { result ≢ Err LoadFault.KeepFault → (K.shows keeper.new).faults ≡ (K.shows keeper.old).faults }
    ensures read { result ≢ Err LoadFault.ReadFault }
    ensures line { IfErr result (λ e. refusal_of e ≡ None) }
    ensures asked { (K.shows keeper.new).asked ≡ (K.shows keeper.old).asked }
    ensures steady { IsTrue (K.shows keeper.old).is_steady → result ≢ Err LoadFault.KeepFault }
    ensures stays_steady { IsTrue (K.shows keeper.old).is_steady → IsTrue (K.shows keeper.new).is_steady }
{
    match write_file_as(
        alloc,
        plan.form,
        plan.schema,
        &filled.columns,
        u64::from(filled.records),
    ) {
        Err(_) => Err(LoadFault::NoMemory),
        Ok(file) => put_copies(alloc, keeper, plan.leaves, plan.copies, tablet, &file),
    }
}

/// Puts what is left where the input ends behind so many tablets: the last tablet, if it has records or is the only
/// one.
pub(crate) fn put_last<K: Keeper>(
    alloc: Global,
    plan: &Plan<'_, '_, '_>,
    keeper: &mut K,
    loaded: Loaded,
    filled: &Filled,
) -> Result<Loaded, LoadFault>
    requires columns { AreColumnsFor (plan_view plan.now).schema (filled.now).columns.items }
    requires few_tablets { loaded.tablets ≤ 4096 }
    requires few_records { loaded.records ≤ 4096000000 }
    ensures put { OverFilled plan.now filled.now (λ R. OnOk result (HasPut
        (puts_from (plan_view plan.now) loaded.tablets (last_tablets loaded.tablets R))
        (K.shows keeper.old) (K.shows keeper.new))) }
    ensures stops { OverFilled plan.now filled.now (λ R. IfErr result (StopsPutting
        (puts_from (plan_view plan.now) loaded.tablets (last_tablets loaded.tablets R))
        (K.shows keeper.old) (K.shows keeper.new))) }
    ensures tablets { (R : List Node) → length R ≡ (filled.now).records
        → IfOk result (λ l. l.tablets ≡ loaded.tablets + length (last_tablets loaded.tablets R)) }
    ensures records { IfOk result (λ l. l.records ≡ loaded.records + (filled.now).records) }
    ensures cause { result ≡ Err LoadFault.KeepFault → (K.shows keeper.new).faults
        ≡ raised (K.shows keeper.old).faults }
    ensures calm { result ≢ Err LoadFault.KeepFault → (K.shows keeper.new).faults ≡ (K.shows keeper.old).faults }
    ensures read { result ≢ Err LoadFault.ReadFault }
    ensures line { IfErr result (λ e. refusal_of e ≡ None) }
    ensures asked { (K.shows keeper.new).asked ≡ (K.shows keeper.old).asked }
    ensures steady { IsTrue (K.shows keeper.old).is_steady → result ≢ Err LoadFault.KeepFault }
    ensures stays_steady { IsTrue (K.shows keeper.old).is_steady → IsTrue (K.shows keeper.new).is_steady }
{
    if filled.records == 0 && loaded.tablets > 0 {
        return Ok(loaded);
    }
    match put_tablet(alloc, plan, keeper, loaded.tablets, filled) {
        Ok(()) => Ok(Loaded {
            tablets: loaded.tablets + 1,
            records: loaded.records + u64::from(filled.records),
        }),
        Err(fault) => Err(fault),
    }
}
