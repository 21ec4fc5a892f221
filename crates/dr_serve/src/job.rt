// The job of a table.
ghost use Rattle.std.specs.Prelude.{◌≡◌, ◌<◌, IfOk, map};
ghost use Rattle.dr_reading.specs.Scan.{copies_from};
ghost use Rattle.dr_table.specs.Views.{table_view};
ghost use Rattle.dr_serve.specs.Working.{directories_of, table_job};

use dr_desk::Job;
use dr_memory::NoMemory;
use dr_table::{Table, placement};
use std::alloc::Global;

// Each tablet on the leaves of its copies, in the order in which they are tried.
pub(crate) fn job_of(alloc: Global, table: &Table, lag: u64) -> Result<Job, NoMemory>
    ensures { IfOk result (λ j. j ≡ table_job (table_view table.now) lag) }
{
    let mut leaves = Vec::new(alloc);
    'tablets: for tablet in 0..table.tablets {
        leaves.push(leaves_of(alloc, table, tablet)?)?;
    }
    Ok(Job { leaves, lag })
}

// The leaves of a tablet's copies.
fn leaves_of(alloc: Global, table: &Table, tablet: u32) -> Result<Vec<u32>, NoMemory>
    ensures { IfOk result (λ v. v.items
        ≡ directories_of (copies_from (table_view table.now).leaves tablet 0 (table.now).copies)) }
{
    let mut leaves = Vec::new(alloc);
    'copies: for copy in 0..table.copies {
        leaves.push(placement(table, tablet, copy))?;
    }
    Ok(leaves)
}
