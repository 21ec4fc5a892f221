//! What serving trees gather.

ghost use Rattle.std.specs.Prelude.{◌≡◌, ℕ, IfOk, length, map};
ghost use Rattle.dr_meaning.specs.Schema.{Fields};
ghost use Rattle.dr_meaning.specs.Query.{Query};
ghost use Rattle.dr_partials.specs.Trees.{gathered, tablets_of};
ghost use Rattle.dr_plan.specs.Planned.{Planned};
ghost use Rattle.dr_group.specs.Partials.{partial_view, IsPartialOf};
ghost use Rattle.dr_tree.specs.Together.{AreBounded, AreOfPlan, IsBounded, Together, partials_view};
ghost use Rattle.dr_tree.specs.Views.{tree_view};
ghost use Rattle.dr_partials.specs.Partials as meant;

use dr_group::Partial;
use dr_memory::NoMemory;
use dr_tree::{Tree, gather};
use std::alloc::Global;
use std::thread::Threads;

/// As `gather`.
pub fn gathered_of<R: Threads + Sync>(
    rt: &R,
    alloc: Global,
    tree: &Tree,
    partials: Vec<Partial>,
) -> Result<Partial, NoMemory>
    requires tablets { length partials.items ≡ length (tablets_of (tree_view tree.now)) }
    requires together { Together partials.items }
    ensures gathered { IfOk result (λ r. (piece : ℕ → meant.Partial)
        → map piece (tablets_of (tree_view tree.now)) ≡ partials_view partials.items
        → partial_view r ≡ gathered piece (tree_view tree.now)) }
    ensures of_plan { IfOk result (λ r. (p : Planned) → AreOfPlan p partials.items → IsPartialOf p r) }
    ensures bounded { IfOk result (λ r. (fs : Fields) (q : Query) (most : ℕ)
        → AreBounded fs q most (partials_view partials.items)
        → IsBounded fs q most (partial_view r)) }
{
    gather(rt, alloc, tree, partials)
}
