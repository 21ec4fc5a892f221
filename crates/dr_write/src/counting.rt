//! Counts of what lies in memory.

ghost use Rattle.std.specs.Prelude.{◌≡◌, IfOk, pos};

use dr_memory::NoMemory;
use dr_meta::Count;

/// A number of things in memory as a count. There is no memory for 2^63.
pub(crate) fn count_of(number: u64) -> Result<Count, NoMemory>
    ensures { IfOk result (λ c. c.number ≡ number) }
{
    Count::new(number).ok_or(NoMemory)
}

/// A number of things in memory, signed as the format has it.
pub(crate) fn signed_of(number: usize) -> Result<i64, NoMemory>
    ensures { IfOk result (λ z. z ≡ pos number) }
{
    Ok(count_of(number as u64)?.get() as i64)
}
