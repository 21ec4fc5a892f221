// The closing round: what the first link gives of the tablets without a piece.
ghost use Rattle.std.specs.Prelude.{◌≡◌, ◌<◌, ◌+◌, ◌∷◌, ℕ, IfOk, List, OnOk, Option, map};
ghost use Rattle.dr_nested.specs.SchemaView.{schema_view};
ghost use Rattle.dr_outside.specs.Link.{LinkShown};
ghost use Rattle.dr_table.specs.Views.{table_view};
ghost use Rattle.dr_partials.specs.Trees.{Tree};
ghost use Rattle.dr_group.specs.declared.partial.Partial.{Partial};
ghost use Rattle.dr_plan.specs.Planned.{IsOfSchema, plan_leaves};
ghost use Rattle.dr_reading.specs.Causes.{RisesApart};
ghost use Rattle.dr_reading.specs.Left.{causes_met};
ghost use Rattle.dr_table.specs.LeftViews.{all_left_view};
ghost use Rattle.dr_scan.specs.Tables.{with_scanned};
ghost use Rattle.dr_serve.specs.Working.{TakesFrom};
ghost use Rattle.dr_serve.specs.Closing.{AreAddable, CanKeep, Closes, HasClosed, HasFound, HasKept, IsNext, IsOutcomeOf, IsReadAs, causes_at, has_some};
ghost use Rattle.dr_serve.specs.Rounds.{HasRead};
ghost use Rattle.dr_serve.specs.Links.{Worked};

use crate::answered::Answered;
use crate::table_job::TableJob;
use dr_memory::NoMemory;
use dr_outside::Link;
use dr_plan::Plan;
use dr_scan::{Scanned, scan_tablet};
use dr_table::{LeftTablet, Table};
use dr_tree::Growing;
use std::alloc::Global;

// What comes of a table's tablets: what has grown of their pieces, and those that are left, of which there is none.
#[derive(Drop)]
pub(crate) struct Closed {
    pub(crate) grown: Growing,
    pub(crate) left: Vec<LeftTablet>,
}

// What the link gives of a tablet.
fn outcome_of<S: TableJob, L: Link>(
    alloc: Global,
    link: &mut L,
    plan: &Plan,
    table: &Table,
    tablet: u32,
) -> Result<Scanned, NoMemory>
    requires planned { IsOfSchema (schema_view (table.now).schema) plan.now }
    requires truth { TakesFrom (table_view table.now) plan.now S.is_true (L.shows link.old).held }
    requires tablet { tablet < (table.now).tablets }
    ensures outcome { IfOk result (IsOutcomeOf (table_view table.now) plan.now S.is_true (L.shows link.old) tablet) }
    ensures rises { IfOk result (λ x. RisesApart (L.shows link.old).faults (causes_at x) (L.shows link.new).faults) }
    ensures read { IfOk result (IsReadAs (table_view table.now) plan.now (L.shows link.old) (L.shows link.new) tablet) }
    ensures link { Worked (table_view table.now) plan.now (L.shows link.old) (L.shows link.new) }
{
    scan_tablet(alloc, link, table, plan, tablet)
}

// Keeps what came of a tablet without a piece.
fn keep(alloc: Global, closed: &mut Closed, tablet: u32, outcome: Scanned) -> Result<(), NoMemory>
    requires { CanKeep tablet outcome (closed.old).grown }
    ensures grown { OnOk result (HasKept tablet outcome (closed.old).grown (closed.new).grown) }
    ensures left { OnOk result (all_left_view (closed.new).left.items
        ≡ with_scanned tablet outcome (all_left_view (closed.old).left.items)) }
{
    match outcome {
        Scanned::Given(partial) => closed.grown.add(alloc, tablet, partial),
        Scanned::Left(tried) => {
            closed.left.push(LeftTablet { tablet, tried })?;
            Ok(())
        }
    }
}

// Closes a tablet: one without a piece is scanned, and only here a tablet is left.
fn close_tablet<S: TableJob, L: Link>(
    alloc: Global,
    link: &mut L,
    plan: &Plan,
    table: &Table,
    tablet: u32,
    has_piece: bool,
    closed: &mut Closed,
) -> Result<(), NoMemory>
    requires planned { IsOfSchema (schema_view (table.now).schema) plan.now }
    requires truth { TakesFrom (table_view table.now) plan.now S.is_true (L.shows link.old).held }
    requires addable { AreAddable (table_view table.now) plan.now S.is_true }
    requires tablet { tablet < (table.now).tablets }
    requires next { IsNext (table_view table.now) plan.now S.is_true (L.shows link.old) tablet has_piece
        (closed.old).grown (all_left_view (closed.old).left.items) }
    ensures closed { (next : IsNext (table_view table.now) plan.now S.is_true (L.shows link.old) tablet has_piece
        (closed.old).grown (all_left_view (closed.old).left.items)) → OnOk result (HasClosed (table_view table.now)
        plan.now next.tree S.is_true next.first (L.shows link.new) next.all next.rest (tablet + 1) (closed.new).grown
        (all_left_view (closed.new).left.items)) }
    ensures link { Worked (table_view table.now) plan.now (L.shows link.old) (L.shows link.new) }
{
    if has_piece {
        return Ok(());
    }
    let outcome = outcome_of::<S, L>(alloc, link, plan, table, tablet)?;
    keep(alloc, closed, tablet, outcome)
}

// Goes over all tablets, in order: what is scanned of those without a piece is added as it comes.
pub(crate) fn close<S: TableJob, L: Link>(
    alloc: Global,
    link: &mut L,
    plan: &Plan,
    table: &Table,
    answered: Answered,
) -> Result<Closed, NoMemory>
    requires planned { IsOfSchema (schema_view (table.now).schema) plan.now }
    requires truth { TakesFrom (table_view table.now) plan.now S.is_true (L.shows link.old).held }
    requires addable { AreAddable (table_view table.now) plan.now S.is_true }
    requires found { (tree : Tree) × (places : List (Option Partial))
        × HasFound (table_view table.now) plan.now tree S.is_true places answered.grown
        × (answered.has_piece.items ≡ map has_some places) }
    ensures closes { (tree : Tree) (places : List (Option Partial))
        → HasFound (table_view table.now) plan.now tree S.is_true places answered.grown
        → answered.has_piece.items ≡ map has_some places
        → IfOk result (λ c. Closes (table_view table.now) plan.now tree S.is_true (L.shows link.old) places c.grown
        (all_left_view c.left.items)) }
    ensures rises { IfOk result (λ c. RisesApart (L.shows link.old).faults (causes_met (all_left_view c.left.items))
        (L.shows link.new).faults) }
    ensures read { IfOk result (λ c. HasRead (table_view table.now) (plan_leaves plan.now) (L.shows link.old)
        (L.shows link.new) (table.now).tablets (all_left_view c.left.items)) }
    ensures link { Worked (table_view table.now) plan.now (L.shows link.old) (L.shows link.new) }
{
    let Answered { grown, has_piece } = answered;
    let left = Vec::new(alloc);
    let mut closed = Closed { grown, left };
    'tablets: for tablet in 0..table.tablets {
        let is_there = has_piece[tablet as usize];
        close_tablet::<S, L>(alloc, link, plan, table, tablet, is_there, &mut closed)?;
    }
    Ok(closed)
}
