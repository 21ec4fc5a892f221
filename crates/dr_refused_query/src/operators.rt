//! Operators over operands.

ghost use Rattle.std.specs.Prelude.{◌≡◌, ◌&&◌, List, IfOk, IfSome, option_map};
ghost use Rattle.dr_meaning.specs.Path.{Leaf};
ghost use Rattle.dr_plan.specs.Views.{expr_view};
ghost use Rattle.dr_plan.specs.Fitting.{expr_fits};
ghost use Rattle.dr_resolve.specs.Bound.{type_of};
ghost use Rattle.dr_resolve.specs.Operators.{binary_type, binary_of};

use dr_memory::NoMemory;
use dr_plan::Expr;
use dr_resolve::Binary;
use std::alloc::Global;

/// As `Binary::apply`.
pub fn combined(
    operator: Binary,
    alloc: Global,
    left: Expr,
    right: Expr,
) -> Result<Option<Expr>, NoMemory>
    ensures typed { IfOk result (λ o. option_map type_of o ≡ binary_type operator (type_of left) (type_of right)) }
    ensures view { IfOk result (λ o. IfSome o (λ e. (ls : List Leaf)
        → expr_view ls e ≡ binary_of operator (expr_view ls left) (expr_view ls right))) }
    ensures fits { IfOk result (λ o. IfSome o (λ e. (ls : List Leaf)
        → expr_fits ls e ≡ (expr_fits ls left && expr_fits ls right))) }
{
    operator.apply(alloc, left, right)
}
