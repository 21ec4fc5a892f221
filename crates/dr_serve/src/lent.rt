// What is lent to all workers.
ghost use Rattle.std.specs.Prelude.{◌<◌, length};
ghost use Rattle.dr_serve.specs.Lent.{AcceptsAll, AcceptsLent, ChangesAll, ChangesLent};

use std::thread;
use std::thread::Threads;

// Calls it for one worker.
fn call<P: Copy, T: Copy, D: Copy, G: Copy, L, F: Fn(P, T, D, G, usize, &mut L)>(
    plan: P,
    table: T,
    desk: D,
    grown: G,
    worker: usize,
    link: &mut L,
    f: &F,
)
    requires { AcceptsLent F.Fn f.now plan table desk grown worker link.old }
    ensures { ChangesLent F.Fn f.now plan table desk grown worker link.old link.new }
{
    f(plan, table, desk, grown, worker, link);
}

// Calls it for each worker at the same time, with its number and its link. Each thing that is lent has a type of its
// own, so that a caller shows of each by itself that threads may share it.
pub(crate) fn for_each_worker<
    P: Copy + Sync,
    T: Copy + Sync,
    D: Copy + Sync,
    G: Copy + Sync,
    L: Send,
    R: Threads + Sync,
    F: Fn(P, T, D, G, usize, &mut L) + Sync,
>(rt: &R, plan: P, table: T, desk: D, grown: G, links: &mut [L], f: &F)
    requires some { 0 < length links.old }
    requires accepts { AcceptsAll F.Fn f.now plan table desk grown links.old }
    ensures { ChangesAll F.Fn f.now plan table desk grown links.old links.new }
{
    thread::for_each_mut(
        rt,
        links,
        links.len(),
        &|worker: usize, link: &mut L|
            requires { AcceptsLent F.Fn f.now plan table desk grown worker link.now }
            ensures { ChangesLent F.Fn f.entry.now plan table desk grown worker link.entry.now link.exit.now }
        { call(plan, table, desk, grown, worker, link, f) },
    );
}
