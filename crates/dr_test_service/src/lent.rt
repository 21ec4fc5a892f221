//! What is lent to all threads.

ghost use Rattle.std.specs.Prelude.{◌<◌, length};
ghost use Rattle.dr_test_service.specs.Lent.{AcceptsAll, AcceptsLent};

use std::thread;
use std::thread::Threads;

/// Calls it for one.
fn call<P: Copy, S: Copy, L, F: Fn(P, S, &mut L)>(plan: P, service: S, job: &mut L, f: &F)
    requires { AcceptsLent F.Fn f.now plan service job.old }
{
    f(plan, service, job);
}

/// Calls it for each at the same time. Each thing that is lent has a type of its own, so that a caller shows of each by
/// itself that threads may share it.
pub fn for_each_job<
    P: Copy + Sync,
    S: Copy + Sync,
    L: Send,
    R: Threads + Sync,
    F: Fn(P, S, &mut L) + Sync,
>(rt: &R, plan: P, service: S, jobs: &mut [L], f: &F)
    requires some { 0 < length jobs.old }
    requires accepts { AcceptsAll F.Fn f.now plan service jobs.old }
{
    thread::for_each_mut(
        rt,
        jobs,
        jobs.len(),
        &|_: usize, job: &mut L|
            requires { AcceptsLent F.Fn f.now plan service job.now }
        { call(plan, service, job, f) },
    );
}
