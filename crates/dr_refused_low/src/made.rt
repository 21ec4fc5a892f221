//! Made records.

ghost use Rattle.std.specs.Prelude.{◌≡◌, ◌≤◌, ◌+◌, ◌^◌, IfOk};
ghost use Rattle.dr_gen.specs.Generator.{lines_from};
ghost use Rattle.dr_gen.specs.Left.{left_of};

use dr_gen::GenSource;
use dr_memory::NoMemory;
use std::alloc::Global;

/// As `GenSource::new`.
pub fn lines_made(alloc: Global, seed: u64, records: u64) -> Result<GenSource, NoMemory>
    requires { seed + records ≤ 2 ^ 32 }
    ensures { IfOk result (λ s. left_of s ≡ lines_from seed records) }
{
    GenSource::new(alloc, seed, records)
}
