ghost use Rattle.std.specs.Prelude.{◌≡◌, ◌*◌, ◌^◌, ◌<◌, IfOk};
ghost use Rattle.dr_dispatch.specs.Job.{pairs};

use dr_memory::NoMemory;
use std::marker::Model;

// The most pairs for whose events a vector can have room.
const MOST_PAIRS: usize = 1 << 60;

/// What there is to hand out: the leaves of each tablet, in the order in which they are tried, and after how many
/// events a tablet that was handed out is handed out again. A tablet's number is its place, from 0.
#[derive(Debug, Drop)]
pub struct Job {
    pub leaves: Vec<Vec<u32>>,
    pub lag: u64,
}

impl Model for Job {
    ghost use Rattle.std.specs.Prelude.{map};
    ghost use Rattle.dr_dispatch.specs.Job.{Job as JobShown};

    ghost Value = { JobShown };

    ghost view = { λ j. record { leaves = map (λ v. v.items) j.leaves.items; lag = j.lag } };
}

// The number of pairs of a tablet and a leaf of it. Where three times that are no number of events, there is no room
// for them.
pub(crate) fn count_pairs(job: &Job) -> Result<usize, NoMemory>
    ensures count { IfOk result (λ n. n ≡ pairs job.now) }
    ensures bound { IfOk result (λ n. 3 * n < 2 ^ 63) }
{
    let mut count = 0;
    'tablets: for leaves in job.leaves.iter() {
        if leaves.len() > MOST_PAIRS - count {
            return Err(NoMemory);
        }
        count += leaves.len();
    }
    Ok(count)
}
