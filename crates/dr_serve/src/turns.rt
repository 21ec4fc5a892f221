// A worker's turns.
ghost use Rattle.std.specs.Prelude.{◌≡◌, true, None, OnOk, OnErr};
ghost use mathlib.Core.List.{IsPrefix};
ghost use Rattle.dr_dispatch.specs.History.{has_give, is_history};
ghost use Rattle.dr_dispatch.specs.Choice.{choice};
ghost use Rattle.dr_nested.specs.SchemaView.{schema_view};
ghost use Rattle.dr_table.specs.Views.{table_view};
ghost use Rattle.dr_plan.specs.Planned.{IsOfSchema};
ghost use Rattle.dr_serve.specs.Working.{table_leaves, TakesFrom, IsCauseFor, IsRisenFor};
ghost use Rattle.dr_serve.specs.Ends.{HasEnd, EndsAll, EndsAllButLast, TellsEnd};
ghost use Rattle.dr_serve.specs.Links.{Worked};
ghost use Rattle.dr_serve.specs.GrowsOn.{GrowsOn};

use crate::added::{Added, Jobs};
use crate::grown::Grown;
use crate::table_job::TableJob;
use dr_desk::{Desk, Hand, Pass, Room};
use dr_file::FileFault;
use dr_memory::NoMemory;
use dr_outside::Link;
use dr_plan::Plan;
use dr_scan::scan;
use dr_table::{Steps, Table, path_of};
use std::alloc::Global;
use std::sync::{Mutex, Wait};

// One turn: the hand's copy is scanned, and its partial is added and an answer told, or a fault is; or there was no
// memory, and nothing is told.
pub(crate) fn turn<S: TableJob + Room, B: Room, L: Link, R: Wait>(
    rt: &R,
    alloc: Global,
    desk: &Desk<Added<S>, Jobs<S>, B>,
    grown: &Mutex<Grown<S>>,
    plan: &Plan,
    table: &Table,
    link: &mut L,
    pass: &mut Pass<B>,
    hand: Hand,
) -> Result<(), NoMemory>
    requires planned { IsOfSchema (schema_view (table.now).schema) plan.now }
    requires job { S.job.leaves ≡ table_leaves (table_view table.now) }
    requires truth { TakesFrom (table_view table.now) plan.now S.is_true (L.shows link.old).held }
    requires grows_on { GrowsOn S.is_true S.has_grown }
    requires recorded { is_history S.job pass.old.seen ≡ true }
    requires given { has_give pass.old.seen hand ≡ true }
    ensures earlier { IsPrefix pass.old.seen pass.new.seen }
    ensures recorded { is_history S.job pass.new.seen ≡ true }
    ensures ended { OnOk result (HasEnd pass.new.seen hand) }
    ensures told { TellsEnd (IsRisenFor (table_view table.now) plan.now (L.shows link.old) (L.shows link.new)) pass.old
        pass.new }
    ensures silent { OnErr result (pass.new ≡ pass.old) }
    ensures link { Worked (table_view table.now) plan.now (L.shows link.old) (L.shows link.new) }
{
    let path = path_of(alloc, table, hand.leaf, hand.tablet)?;
    let mut steps = Steps::new();
    match scan(alloc, plan, link, path.as_str(), &table.schema, &mut steps) {
        Ok(partial) => {
            let added = grown.lock(rt).add(alloc, hand, partial)?;
            let _ = desk.answer(rt, pass, hand, added);
            Ok(())
        }
        Err(FileFault::NoMemory) => Err(NoMemory),
        Err(FileFault::Why(cause)) => {
            let _ = desk.fault(rt, pass, hand, cause);
            Ok(())
        }
    }
}

/// A worker's loop: it takes a tablet on a leaf, scans the copy there through its link, adds the partial to what grows
/// and tells the desk so, or tells it the cause for which there is none, until nothing is handed out. The pass ends
/// with the history in which nothing is left to hand out; each of the worker's own hand-outs has an end there, and each
/// of its own faults is justified: each failed read by a rise of the link's count of its own, in their order.
///
/// Errors: there was no memory to scan a tablet, or to add what was found. Nothing is told of it then, and the loop
/// ends; all that is said of the worker's events holds of those before this last hand-out.
pub fn work<S: TableJob + Room, B: Room, L: Link, R: Wait>(
    rt: &R,
    alloc: Global,
    desk: &Desk<Added<S>, Jobs<S>, B>,
    grown: &Mutex<Grown<S>>,
    plan: &Plan,
    table: &Table,
    link: &mut L,
    pass: &mut Pass<B>,
) -> Result<(), NoMemory>
    requires planned { IsOfSchema (schema_view (table.now).schema) plan.now }
    requires job { S.job.leaves ≡ table_leaves (table_view table.now) }
    requires truth { TakesFrom (table_view table.now) plan.now S.is_true (L.shows link.old).held }
    requires grows_on { GrowsOn S.is_true S.has_grown }
    ensures earlier { IsPrefix pass.old.seen pass.new.seen }
    ensures none { OnOk result (choice S.job pass.new.seen ≡ None) }
    ensures ended { OnOk result (EndsAll (IsCauseFor (table_view table.now) plan.now (L.shows link.old))
        (L.shows link.old).faults (L.shows link.new).faults pass.old pass.new) }
    ensures silent { OnErr result (EndsAllButLast (IsCauseFor (table_view table.now) plan.now (L.shows link.old)) S.job
        (L.shows link.old).faults (L.shows link.new).faults pass.old pass.new) }
    ensures link { Worked (table_view table.now) plan.now (L.shows link.old) (L.shows link.new) }
{
    'turns: while let Some(hand) = desk.take(rt, pass) {
        turn(rt, alloc, desk, grown, plan, table, link, pass, hand)?;
    }
    Ok(())
}
