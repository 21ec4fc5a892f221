//! Copies of paths.

ghost use Rattle.std.specs.Prelude.{◌≡◌, map, IfOk};
ghost use Rattle.std.specs.List.{slice_get, filter_map};
ghost use Rattle.dr_nested.specs.PathView.{path_view};

use dr_memory::NoMemory;
use dr_nested::Path;
use std::alloc::Global;

/// A path of its own that equals this one.
fn copy_path(alloc: Global, path: &Path) -> Result<Path, NoMemory>
    ensures { IfOk result (λ p. path_view p ≡ path_view path.now) }
{
    let mut names = Vec::with_capacity(alloc, path.names.len())?;
    'names: for name in &path.names {
        names.push(String::from_str(alloc, name.as_str())?)?;
    }
    Ok(Path {
        names,
        steps: path.steps.to_vec(alloc)?,
        kind: path.kind,
    })
}

/// Copies of the paths at these places, in the order of the places.
pub(crate) fn paths_at(
    alloc: Global,
    paths: &[Path],
    places: &[usize],
) -> Result<Vec<Path>, NoMemory>
    ensures { IfOk result (λ v. map path_view v.items ≡ filter_map (slice_get (map path_view paths.now)) places.now) }
{
    let mut copies = Vec::with_capacity(alloc, places.len())?;
    'places: for place in places {
        if let Some(path) = paths.get(*place) {
            copies.push(copy_path(alloc, path)?)?;
        }
    }
    Ok(copies)
}
