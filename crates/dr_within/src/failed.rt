//! What a scan made, unless it refused a move.

ghost use Rattle.std.specs.Prelude.{◌≡◌, true, IfOk, IsErr};

use dr_memory::NoMemory;

/// What was made, unless a move was refused.
pub(crate) fn unless_failed<T: Drop>(failed: bool, made: T) -> Result<T, NoMemory>
    ensures made { IfOk result (λ m. m ≡ made) }
    ensures refused { failed ≡ true → IsErr result }
{
    if failed {
        return Err(NoMemory);
    }
    Ok(made)
}
