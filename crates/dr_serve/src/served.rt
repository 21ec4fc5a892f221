// A table's tablets, handed out to workers.
ghost use Rattle.std.specs.Prelude.{◌≡◌, ◌<◌, [], true, length, All, IfOk};
ghost use Rattle.dr_dispatch.specs.History.{is_history};
ghost use Rattle.dr_dispatch.specs.Pieces.{KeepsPieces};
ghost use Rattle.dr_nested.specs.SchemaView.{schema_view};
ghost use Rattle.dr_table.specs.Views.{table_view};
ghost use Rattle.dr_plan.specs.Planned.{IsOfSchema};
ghost use Rattle.dr_serve.specs.Working.{table_job, table_leaves, TakesFrom};
ghost use Rattle.dr_serve.specs.Links.{Worked, OfEachLink};
ghost use Rattle.dr_serve.specs.GrowsOn.{AnsweredHavePieces, GrowsOn, IsOfPieces};

use crate::added::{Added, Jobs};
use crate::answered::Answered;
use crate::grown::Grown;
use crate::job::job_of;
use crate::lent::for_each_worker;
use crate::table_job::TableJob;
use crate::turns::work;
use dr_desk::{Board, Closing, Desk, Event, Ground, Pass, Room};
use dr_memory::NoMemory;
use dr_outside::Link;
use dr_plan::Plan;
use dr_table::Table;
use std::alloc::Global;
use std::sync::{Mutex, Wait};
use std::thread::Threads;

// What was heard of workers that have ended: what has grown, and the history of the desk that was shut.
#[derive(Drop)]
pub(crate) struct Heard {
    pub(crate) answered: Answered,
    pub(crate) history: Vec<Event>,
}

// A worker, which takes the pass of its number.
fn start<S: TableJob + Room, B: Room, L: Link, R: Wait>(
    rt: &R,
    alloc: Global,
    desk: &Desk<Added<S>, Jobs<S>, B>,
    grown: &Mutex<Grown<S>>,
    plan: &Plan,
    table: &Table,
    passes: &[Mutex<Option<Pass<B>>>],
    worker: usize,
    link: &mut L,
)
    requires planned { IsOfSchema (schema_view (table.now).schema) plan.now }
    requires job { S.job.leaves ≡ table_leaves (table_view table.now) }
    requires truth { TakesFrom (table_view table.now) plan.now S.is_true (L.shows link.old).held }
    requires grows_on { GrowsOn S.is_true S.has_grown }
    ensures { Worked (table_view table.now) plan.now (L.shows link.old) (L.shows link.new) }
{
    let Some(slot) = passes.get(worker) else {
        return;
    };
    let Some(mut pass) = slot.lock(rt).take() else {
        return;
    };
    // What a worker without memory left is done by the others, or after them.
    let _ = work(rt, alloc, desk, grown, plan, table, link, &mut pass);
}

// Starts a worker for each link, and waits until all have ended.
fn hand_out<
    S: TableJob + Room + Send + Sync,
    B: Room + Send + Sync,
    L: Link + Send,
    R: Threads + Wait + Sync,
>(
    rt: &R,
    alloc: Global,
    desk: &Desk<Added<S>, Jobs<S>, B>,
    grown: &Mutex<Grown<S>>,
    plan: &Plan,
    table: &Table,
    passes: &[Mutex<Option<Pass<B>>>],
    links: &mut [L],
)
    requires planned { IsOfSchema (schema_view (table.now).schema) plan.now }
    requires job { S.job.leaves ≡ table_leaves (table_view table.now) }
    requires some { 0 < length links.old }
    requires truth { All (λ l. TakesFrom (table_view table.now) plan.now S.is_true (L.shows l).held) links.old }
    requires grows_on { GrowsOn S.is_true S.has_grown }
    ensures links { OfEachLink L.shows (Worked (table_view table.now) plan.now) links.old links.new }
    ensures count { length links.new ≡ length links.old }
{
    for_each_worker(
        rt,
        plan,
        table,
        desk,
        grown,
        links,
        &|plan: &Plan, table: &Table, desk: &Desk<Added<S>, Jobs<S>, B>, grown: &Mutex<
            Grown<S>,
        >, worker: usize, link: &mut L|
            requires { IsOfSchema (schema_view (table.now).schema) plan.now
                × (S.job.leaves ≡ table_leaves (table_view table.now))
                × TakesFrom (table_view table.now) plan.now S.is_true (L.shows link.now).held
                × GrowsOn S.is_true S.has_grown }
            ensures { Worked (table_view table.entry.now) plan.entry.now (L.shows link.entry.now)
                (L.shows link.exit.now) }
        { start(rt, alloc, desk, grown, plan, table, passes, worker, link) },
    );
}

// Workers go on from what has grown: what they found has been added when all have ended.
pub(crate) fn served<
    S: TableJob + Room + Send + Sync,
    B: Room + Send + Sync,
    L: Link + Send,
    R: Threads + Wait + Sync,
>(
    rt: &R,
    alloc: Global,
    ground: Ground,
    added: Ground,
    plan: &Plan,
    table: &Table,
    answered: Answered,
    links: &mut [L],
    lag: u64,
) -> Result<Heard, NoMemory>
    requires ground { ground.table ≡ B.table }
    requires drawn { ground.tablets ≡ (table.now).tablets }
    requires planned { IsOfSchema (schema_view (table.now).schema) plan.now }
    requires job { S.job ≡ table_job (table_view table.now) lag }
    requires added { added.table ≡ S.table }
    requires grown { S.has_grown answered.grown answered.has_piece.items }
    requires none { IsOfPieces [] answered.has_piece.items }
    requires some { 0 < length links.old }
    requires truth { All (λ l. TakesFrom (table_view table.now) plan.now S.is_true (L.shows l).held) links.old }
    requires grows_on { GrowsOn S.is_true S.has_grown }
    ensures grown { IfOk result (λ h. S.has_grown h.answered.grown h.answered.has_piece.items) }
    ensures recorded { IfOk result (λ h. is_history S.job h.history.items ≡ true) }
    ensures pieces { IfOk result (λ h. AnsweredHavePieces h.history.items h.answered.has_piece.items) }
    ensures links { OfEachLink L.shows (Worked (table_view table.now) plan.now) links.old links.new }
    ensures count { length links.new ≡ length links.old }
{
    let (desk, slots) = desk_of::<S, B>(alloc, ground, table, links.len(), lag)?;
    let grown = Mutex::new(Grown::<S>::new(answered, added));
    hand_out(
        rt,
        alloc,
        &desk,
        &grown,
        plan,
        table,
        slots.as_slice(),
        links,
    );
    let closing = desk.shut(Vec::new(alloc));
    Ok(heard_of(grown.into_inner(), closing))
}

// A desk over the job of a table, and so many passes, each under a lock of its own.
fn desk_of<S: TableJob + Room, B: Room>(
    alloc: Global,
    ground: Ground,
    table: &Table,
    count: usize,
    lag: u64,
) -> Result<(Desk<Added<S>, Jobs<S>, B>, Vec<Mutex<Option<Pass<B>>>>), NoMemory>
    requires ground { ground.table ≡ B.table }
    requires drawn { ground.tablets ≡ (table.now).tablets }
    requires job { S.job ≡ table_job (table_view table.now) lag }
{
    let job = job_of(alloc, table, lag)?;
    let board: Board<Added<S>, Jobs<S>> = Board::new(alloc, &job)?;
    let (desk, passes) = Desk::<Added<S>, Jobs<S>, B>::new(alloc, ground, board, count)?;
    let slots = slots_of(alloc, passes)?;
    Ok((desk, slots))
}

// What was heard of all workers: each tablet that was answered has a piece.
fn heard_of<S: TableJob + Room>(mut grown: Grown<S>, closing: Closing<Added<S>>) -> Heard
    requires { KeepsPieces S.job (λ a. a) (λ t a. a ≡ t) closing.history.items closing.pieces.items }
    ensures grown { S.has_grown result.answered.grown result.answered.has_piece.items }
    ensures recorded { is_history S.job result.history.items ≡ true }
    ensures pieces { AnsweredHavePieces result.history.items result.answered.has_piece.items }
{
    let Closing { history, pieces } = closing;
    grown.confirm(pieces);
    Heard {
        answered: grown.into_answered(),
        history,
    }
}

// Each pass under a lock of its own.
fn slots_of<B: Room>(
    alloc: Global,
    passes: Vec<Pass<B>>,
) -> Result<Vec<Mutex<Option<Pass<B>>>>, NoMemory> {
    let mut slots = Vec::new(alloc);
    for pass in passes {
        slots.push(Mutex::new(Some(pass)))?;
    }
    Ok(slots)
}
