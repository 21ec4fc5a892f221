//! Values of a row.

ghost use Rattle.std.specs.Prelude.{◌≡◌, IfOk, List, option_map, true};
ghost use Rattle.dr_meaning.specs.Expression.{evaluate};
ghost use Rattle.dr_meaning.specs.Path.{Leaf};
ghost use Rattle.dr_meaning.specs.Record.{Node, bool_value};
ghost use Rattle.dr_plan.specs.Fitting.{truth_fits};
ghost use Rattle.dr_plan.specs.Views.{truth_view};
ghost use Rattle.dr_scalar.specs.OverSlots.{truth_over};
ghost use Rattle.dr_scalar.specs.Slots.{AreValues, slot_value};

use dr_levels::ValueRef;
use dr_memory::NoMemory;
use dr_plan::Truth;
use std::alloc::Global;

/// As `truth`.
pub fn truth_in(
    alloc: Global,
    truth: &Truth,
    row: &[Option<ValueRef<'_>>],
) -> Result<Option<bool>, NoMemory>
    ensures meant { IfOk result (λ v. (ls : List Leaf) (r : Node) → AreValues ls row.now r → truth_fits ls truth.now
        ≡ true → option_map bool_value v ≡ evaluate (truth_view ls truth.now) r) }
    ensures slots { IfOk result (λ v. option_map bool_value v ≡ truth_over (slot_value row.now) truth.now) }
{
    dr_scalar::truth(alloc, truth, row)
}
