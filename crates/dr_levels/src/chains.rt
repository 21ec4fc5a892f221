//! The repeated fields on a path.

ghost use Rattle.std.specs.Prelude.{◌≡◌, map, IfOk};
ghost use Rattle.dr_meaning.specs.Path as path_meaning;
ghost use Rattle.dr_meaning.specs.Schema as tree;
ghost use Rattle.dr_nested.specs.PathView.{path_view, step_view, lent_path};

use dr_nested::{NoMemory, Path, Rep, Step};
use std::alloc::Global;

fn is_repeated(step: &Step) -> bool
    ensures { result ≡ tree.is_repeated (step_view step.now).repetition }
{
    matches!(step.rep, Rep::Repeated)
}

/// The repeated fields on a path, outermost first, each by its own path.
///
/// Errors: want of memory alone.
pub fn chain(alloc: Global, path: &Path) -> Result<Vec<&[Step]>, NoMemory>
    ensures { IfOk result (λ v. map lent_path v.items ≡ path_meaning.chain (path_view path.now).path) }
{
    let steps = path.steps.as_slice();
    let mut repeated = Vec::new(alloc);
    'steps: for place in 0..steps.len() {
        if is_repeated(&steps[place]) {
            match repeated.push(&steps[..place + 1]) {
                Ok(()) => {}
                Err(_) => return Err(NoMemory),
            }
        }
    }
    Ok(repeated)
}
