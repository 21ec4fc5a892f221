ghost use Rattle.std.specs.Prelude.{◌≡◌, ◌≢◌, ◌<◌, ◌≤◌, ◌*◌, ◌-◌, [], length, map, take, nat_le, All, IfOk, slice_index_or};
ghost use Rattle.std.specs.List.{range_with_len};
ghost use Rattle.dr_partials.specs.Trees as trees;
ghost use Rattle.dr_nested.specs.SchemaView.{schema_view};
ghost use Rattle.dr_table.specs.Views.{table_view};
ghost use Rattle.dr_tree.specs.Views.{tree_view};
ghost use Rattle.dr_tree.specs.Grows.{Growth, Grows};
ghost use Rattle.dr_plan.specs.PlanOf.{ForQuery};
ghost use Rattle.dr_plan.specs.Planned.{IsOfSchema, plan_leaves};
ghost use Rattle.dr_reading.specs.Scan.{tablets_of};
ghost use Rattle.dr_table.specs.LeftViews.{all_left_view};
ghost use Rattle.dr_serve.specs.Closing.{AreAddable, HasAnswered};
ghost use Rattle.dr_serve.specs.GrowsOn.{AreSame, GrowsOn};
ghost use Rattle.dr_serve.specs.Working.{table_job, TakesFrom};
ghost use Rattle.dr_serve.specs.Links.{Worked, LeavesLinks, OfEachLink};
ghost use Rattle.dr_serve.specs.Serving.{first_shown, ClosesAfter, IsShare, IsGrownOf, IsOfGrown, WhereFinished, WhereMost, WhereUnfinished};
ghost use Rattle.dr_serve.specs.Served.{ServedAs, IsHistoryOf, left_in};

use crate::answered::none_answered;
use crate::closing::{Closed, close};
use crate::outcome::{Outcome, Served};
use crate::served::{Heard, served};
use crate::table_job::TableJob;
use dr_desk::{Event, Ground, Room};
use dr_memory::NoMemory;
use dr_outside::Link;
use dr_plan::Plan;
use dr_table::Table;
use dr_tree::Tree;
use std::alloc::Global;
use std::marker::Brand;
use std::sync::Wait;
use std::thread::Threads;

// What came of all tablets, and the history of the desk that handed them out.
#[derive(Drop)]
struct Ended {
    closed: Closed,
    history: Vec<Event>,
}

// The tree grows of what the workers find, as they find it, and, after all have ended, of what the closing round gives
// of the other tablets, with the first link.
fn closed<
    S: TableJob + Room + Send + Sync,
    B: Room + Send + Sync,
    L: Link + Send,
    R: Threads + Wait + Sync,
>(
    rt: &R,
    alloc: Global,
    ground: Ground,
    added: Ground,
    plan: &Plan,
    table: &Table,
    tree: &Tree,
    links: &mut [L],
    lag: u64,
) -> Result<Ended, NoMemory>
    requires ground { ground.table ≡ B.table }
    requires drawn { ground.tablets ≡ (table.now).tablets }
    requires added { added.table ≡ S.table }
    requires planned { IsOfSchema (schema_view (table.now).schema) plan.now }
    requires job { S.job ≡ table_job (table_view table.now) lag }
    requires tree { trees.tablets_of (tree_view tree.now) ≡ range_with_len 0 (table.now).tablets }
    requires some { 0 < length links.old }
    requires truth { All (λ l. TakesFrom (table_view table.now) plan.now S.is_true (L.shows l).held) links.old }
    requires addable { AreAddable (table_view table.now) plan.now S.is_true }
    requires grown { AreSame S.has_grown (HasAnswered (table_view table.now) plan.now (tree_view tree.now) S.is_true) }
    requires grows_on { GrowsOn S.is_true S.has_grown }
    ensures closes { IfOk result (λ e. (l : L) → ClosesAfter (table_view table.now) plan.now (tree_view tree.now)
        S.is_true (L.shows (slice_index_or links.old 0 l)) (L.shows (slice_index_or links.new 0 l)) e.closed.grown
        (all_left_view e.closed.left.items)) }
    ensures history { IfOk result (λ e. IsHistoryOf (table_job (table_view table.now) lag) e.history.items
        (all_left_view e.closed.left.items)) }
    ensures links { OfEachLink L.shows (Worked (table_view table.now) plan.now) links.old links.new }
    ensures count { length links.new ≡ length links.old }
{
    let none = none_answered::<S>(alloc, plan, table, tree)?;
    let heard = served::<S, B, L, R>(rt, alloc, ground, added, plan, table, none, links, lag)?;
    let Heard { answered, history } = heard;
    let closed = close::<S, L>(alloc, &mut links[0], plan, table, answered)?;
    Ok(Ended { closed, history })
}

// Whether so many of all tablets are at least this share of them, in hundredths.
fn is_share(least: u32, counted: usize, all: usize) -> bool
    requires least { least ≤ 100 }
    requires all { all ≤ 4096 }
    requires counted { counted ≤ all }
    ensures { result ≡ nat_le (least * all) (100 * counted) }
{
    least as usize * all <= 100 * counted
}

// Finishes what has grown, unless the tablets that aren't left are less than the share of all.
fn conclude<R: Threads + Sync>(
    rt: &R,
    alloc: Global,
    closed: Closed,
    tablets: usize,
    least: u32,
) -> Result<Outcome, NoMemory>
    requires least { (0 < least) × (least ≤ 100) }
    requires few { tablets ≤ 4096 }
    requires left { length closed.left.items ≤ tablets }
    requires grown { (w : Growth) × Grows w closed.grown }
    ensures none { IfOk result (WhereFinished (λ p. closed.left.items ≡ [])) }
    ensures finished { IfOk result (WhereFinished (IsGrownOf closed.grown)) }
    ensures finished_plan { IfOk result (WhereFinished (IsOfGrown closed.grown)) }
    ensures most { IfOk result (WhereMost (λ p ls. IsGrownOf closed.grown p)) }
    ensures most_plan { IfOk result (WhereMost (λ p ls. IsOfGrown closed.grown p)) }
    ensures most_left { IfOk result (WhereMost (λ p ls. ls ≡ all_left_view closed.left.items)) }
    ensures most_some { IfOk result (WhereMost (λ p ls. ls ≢ [])) }
    ensures share { IfOk result (WhereMost (λ p ls. IsShare least (tablets - length closed.left.items) tablets)) }
    ensures left { IfOk result (WhereUnfinished (λ ls. ls ≡ all_left_view closed.left.items)) }
    ensures some { IfOk result (WhereUnfinished (λ ls. ls ≢ [])) }
    ensures short { IfOk result (WhereUnfinished (λ ls. 100 * (tablets - length closed.left.items)
        < least * tablets)) }

    // What follows from that.
    ensures all { least ≡ 100 → IfOk result (WhereMost (λ p ls. ⊥)) }
{
    let Closed { grown, left } = closed;
    if left.is_empty() {
        return Ok(Outcome::Finished(grown.finish(rt, alloc)?));
    }
    if !is_share(least, tablets - left.len(), tablets) {
        return Ok(Outcome::Unfinished(left));
    }
    Ok(Outcome::Most(grown.finish(rt, alloc)?, left))
}

// Serves by all of these links.
fn serve_by<L: Link + Send, R: Threads + Wait + Sync>(
    rt: &R,
    alloc: Global,
    plan: &Plan,
    table: &Table,
    tree: &Tree,
    links: &mut [L],
    lag: u64,
    least: u32,
) -> Result<Served, NoMemory>
    requires planned { IsOfSchema (schema_view (table.now).schema) plan.now }
    requires tree { trees.tablets_of (tree_view tree.now) ≡ range_with_len 0 (table.now).tablets }
    requires some { 0 < length links.old }
    requires least { (0 < least) × (least ≤ 100) }
    ensures serves { ForQuery (schema_view (table.now).schema) plan.now
        (λ q. IfOk result (λ s. ServedAs (table_view table.now) plan.now q (tree_view tree.now) least
        (map L.shows links.old) (first_shown (map L.shows links.new)) s.outcome)) }
    ensures history { IfOk result (λ s. IsHistoryOf (table_job (table_view table.now) lag) s.history.items
        (left_in s.outcome)) }
    ensures links { OfEachLink L.shows (Worked (table_view table.now) plan.now) links.old links.new }
    ensures count { length links.new ≡ length links.old }
{
    let ground = Ground::new(alloc, table.tablets as usize)?;
    let added = Ground::new(alloc, 0)?;
    let ended = closed::<Brand, Brand, L, R>(
        rt, alloc, ground, added, plan, table, tree, links, lag,
    )?;
    let Ended { closed, history } = ended;
    let outcome = conclude(rt, alloc, closed, table.tablets as usize, least)?;
    Ok(Served { outcome, history })
}

/// Serves a plan's query over a table by so many workers, the first so many of the links with one to a worker. The
/// workers take tablets, a copy at a time, until each has an answer or no copy of it is left to try; one that was
/// handed out is handed out again, on another copy, after `lag` more events. After all workers have ended, the first
/// link goes over the tablets without a piece, in order, each copy of one after another until one gives a piece; only
/// then a tablet is left. The tree gathers a piece of each tablet that isn't left, if these are at least `least`
/// hundredths of all: each once, from the copy that gave it.
///
/// Errors: want of memory, or of room for partials. A worker that finds no memory ends; what it leaves is done by the
/// others, or after them.
pub fn serve<L: Link + Send, R: Threads + Wait + Sync>(
    rt: &R,
    alloc: Global,
    plan: &Plan,
    table: &Table,
    tree: &Tree,
    links: &mut [L],
    workers: usize,
    lag: u64,
    least: u32,
) -> Result<Served, NoMemory>
    requires planned { IsOfSchema (schema_view (table.now).schema) plan.now }
    requires tree { trees.tablets_of (tree_view tree.now) ≡ range_with_len 0 (table.now).tablets }
    requires workers { (0 < workers) × (workers ≤ length links.old) }
    requires least { (0 < least) × (least ≤ 100) }
    ensures serves { ForQuery (schema_view (table.now).schema) plan.now
        (λ q. IfOk result (λ s. ServedAs (table_view table.now) plan.now q (tree_view tree.now) least
        (map L.shows (take workers links.old)) (first_shown (map L.shows links.new)) s.outcome)) }
    ensures history { IfOk result (λ s. IsHistoryOf (table_job (table_view table.now) lag) s.history.items
        (left_in s.outcome)) }
    ensures links { LeavesLinks (plan_leaves plan.now) (tablets_of (table_view table.now)) L.shows workers links.old
        links.new }
{
    serve_by(
        rt,
        alloc,
        plan,
        table,
        tree,
        &mut links[..workers],
        lag,
        least,
    )
}
