//! Inputs loaded as tables.

ghost use Rattle.std.specs.Prelude.{◌≡◌, ◌≢◌, [], Some, None, Err, MatchOption, ⊤, IsTrue, IfOk, IfErr, OnOk};
ghost use Rattle.dr_outside.specs.Faults.{raised};
ghost use Rattle.dr_load.specs.Faults.{refusal_of};
ghost use Rattle.dr_load.specs.Plans.{plan_view};
ghost use Rattle.dr_input.specs.Taken.{WhereTold, AcceptsRead};
ghost use Rattle.dr_load.specs.Puts.{HasPut};
ghost use Rattle.dr_load.specs.Given.{HasPutFull};
ghost use Rattle.dr_load.specs.Loads.{LeavesPuts, LoadsTable};
ghost use Rattle.dr_formats.specs.Loading as meant;

use dr_load::{LoadFault, Loaded, Plan, load};
use dr_outside::{Keeper, Source};
use std::alloc::Global;

/// As `load`.
pub fn loaded<S: Source, K: Keeper>(
    alloc: Global,
    plan: &Plan<'_, '_, '_>,
    source: &mut S,
    keeper: &mut K,
) -> Result<Loaded, LoadFault>
    ensures accepted { OnOk result (WhereTold (S.shows source.old).left
        (λ input. (meant.load (plan_view plan.now) input).refusal ≡ None)) }
    ensures tablets { IfOk result (λ l. WhereTold (S.shows source.old).left
        (λ input. l.tablets ≡ (meant.load (plan_view plan.now) input).tablets)) }
    ensures records { IfOk result (λ l. WhereTold (S.shows source.old).left
        (λ input. l.records ≡ (meant.load (plan_view plan.now) input).records)) }
    ensures puts { OnOk result (WhereTold (S.shows source.old).left
        (λ input. HasPut (meant.load (plan_view plan.now) input).puts (K.shows keeper.old) (K.shows keeper.new))) }
    ensures table { IfOk result (λ l. LoadsTable (plan_view plan.now) (plan_view plan.now).table l.tablets
        (S.shows source.old).left (K.shows keeper.old).held (K.shows keeper.new).held) }
    ensures end { OnOk result (WhereTold (S.shows source.old).left (λ _. (S.shows source.new).left ≡ Some [])) }

    ensures refused { IfErr result (λ e. MatchOption (refusal_of e) ⊤
        (λ r. WhereTold (S.shows source.old).left (λ input. (meant.load (plan_view plan.now) input).refusal
        ≡ Some r))) }
    ensures stands { IfErr result (λ e. WhereTold (S.shows source.old).left
        (λ input. LeavesPuts (plan_view plan.now) input (K.shows keeper.old) (K.shows keeper.new) e)) }

    ensures accepts { result ≡ Err LoadFault.ReadFault
        → AcceptsRead (plan_view plan.now).schema.fields (meant.most_loaded (plan.now).rows) 0
        (S.shows source.old).left (S.shows source.new).left }
    ensures given { result ≡ Err LoadFault.ReadFault → HasPutFull (plan_view plan.now) (S.shows source.old).left
        (S.shows source.new).left (K.shows keeper.old) (K.shows keeper.new) }
    ensures source_cause { result ≡ Err LoadFault.ReadFault
        → (S.shows source.new).faults ≡ raised (S.shows source.old).faults }
    ensures source_calm { result ≢ Err LoadFault.ReadFault → (S.shows source.new).faults ≡ (S.shows source.old).faults }
    ensures keeper_cause { result ≡ Err LoadFault.KeepFault
        → (K.shows keeper.new).faults ≡ raised (K.shows keeper.old).faults }
    ensures keeper_calm { result ≢ Err LoadFault.KeepFault → (K.shows keeper.new).faults ≡ (K.shows keeper.old).faults }
    ensures asked { (K.shows keeper.new).asked ≡ (K.shows keeper.old).asked }
    ensures steady { IsTrue (K.shows keeper.old).is_steady → result ≢ Err LoadFault.KeepFault }
    ensures stays_steady { IsTrue (K.shows keeper.old).is_steady → IsTrue (K.shows keeper.new).is_steady }
{
    load(alloc, plan, source, keeper)
}
