ghost use Rattle.std.specs.Prelude.{◌≡◌, ◌≤◌, ◌^◌, length, IfOk};
ghost use Rattle.dr_dispatch.specs.History.{replayed};

use crate::job::Job;
use crate::state::State;
use dr_dispatch::Event;
use dr_memory::NoMemory;
use std::alloc::Global;

/// The state after a list of events, of which those that aren't recorded at their place change nothing.
///
/// Errors: want of memory alone.
pub fn replay(alloc: Global, job: &Job, events: &[Event]) -> Result<State, NoMemory>
    requires { length job.now.leaves ≤ 2 ^ 32 }
    ensures job { IfOk result (λ state. state.job ≡ job.now) }
    ensures history { IfOk result (λ state. state.history ≡ replayed job.now events.now) }
{
    let mut state = State::new(alloc, job)?;
    'events: for event in events {
        let _ = state.record(*event);
    }
    Ok(state)
}
