//! Serving trees of a fan.

ghost use Rattle.std.specs.Prelude.{◌≡◌, ◌≤◌, IfOk};
ghost use Rattle.dr_tree.specs.Views.{tree_view};
ghost use Rattle.dr_partials.specs.Trees as meant;

use dr_memory::NoMemory;
use dr_tree::{Tree, of_fan};
use std::alloc::Global;

/// As `of_fan`.
pub fn tree_of(alloc: Global, n: u32, fan: u32) -> Result<Tree, NoMemory>
    requires tablets { 1 ≤ n }
    requires fan { 1 ≤ fan }
    ensures { IfOk result (λ t. tree_view t ≡ meant.of_fan n fan) }
{
    of_fan(alloc, n, fan)
}
