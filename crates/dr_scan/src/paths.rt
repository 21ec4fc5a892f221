//! The paths of a plan's leaves.

ghost use Rattle.std.specs.Prelude.{◌≡◌, map, IfOk};
ghost use Rattle.dr_nested.specs.PathView.{lent_path, paths_view};

use dr_memory::NoMemory;
use dr_nested::{Path, Step};
use std::alloc::Global;

/// The steps of paths.
///
/// Errors: want of memory alone.
pub(crate) fn steps_of<'a>(alloc: Global, fields: &'a [Path]) -> Result<Vec<&'a [Step]>, NoMemory>
    ensures { IfOk result (λ v. map lent_path v.items ≡ paths_view fields.now) }
{
    let mut steps = Vec::with_capacity(alloc, fields.len())?;
    'fields: for field in fields {
        steps.push(field.steps.as_slice())?;
    }
    Ok(steps)
}
