//! Numbers of leaves and of keys.

ghost use Rattle.std.specs.Prelude.{◌≡◌, ◌<◌, ◌^◌, ℕ, Some, map};
ghost use Rattle.dr_meaning.specs.Binding as binding;
ghost use Rattle.dr_nested.specs.PathView.{path_view, step_view};
ghost use Rattle.dr_paths.specs.Views.{bound_path_view};
ghost use Rattle.dr_paths.specs.Numbers.{number_among};

use dr_nested::{Path, Step};
use dr_paths::{BoundPath, same_path};

/// The number of a path's leaf among some; of no use where it isn't among them, or has a number past 32 bits.
pub fn leaf_number(leaves: &[Path], steps: &[Step]) -> u32
    ensures { (i : ℕ) → number_among (map path_view leaves.now) (map step_view steps.now) ≡ Some i → i < 2 ^ 32 → result
        ≡ i }
{
    'leaves: for (number, leaf) in leaves.iter().enumerate() {
        if same_path(&leaf.steps, steps) {
            return u32::try_from(number).unwrap_or(0);
        }
    }
    0
}

/// The place of a path among keys, the first where it stands there more than once.
pub fn place_among(keys: &[BoundPath], steps: &[Step]) -> Option<usize>
    ensures { result ≡ binding.place_among (map bound_path_view keys.now) (map step_view steps.now) }
{
    'keys: for (place, key) in keys.iter().enumerate() {
        if same_path(&key.leaf.steps, steps) {
            return Some(place);
        }
    }
    None
}
