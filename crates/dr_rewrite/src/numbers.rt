//! Places as numbers.

ghost use Rattle.std.specs.Prelude.{◌≡◌, ◌+◌, IfOk};

use dr_memory::NoMemory;

/// A place as a number.
///
/// Errors: want of room for the number.
pub(crate) fn number_of(place: usize) -> Result<u32, NoMemory>
    ensures { IfOk result (λ n. n ≡ place) }
{
    let Ok(number) = u32::try_from(place) else {
        return Err(NoMemory);
    };
    Ok(number)
}

/// A place behind others.
///
/// Errors: want of room for the number.
pub(crate) fn place_behind(others: usize, place: usize) -> Result<usize, NoMemory>
    ensures { IfOk result (λ n. n ≡ others + place) }
{
    match others.checked_add(place) {
        Some(sum) => Ok(sum),
        None => Err(NoMemory),
    }
}
