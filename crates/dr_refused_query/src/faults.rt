//! The first fault of a query.

ghost use Rattle.std.specs.Prelude.{◌≡◌, Some};
ghost use Rattle.dr_resolve.specs.Faults.{problem_view, first_view, earlier};

use dr_resolve::{BindProblem, FirstFault};

/// As `FirstFault::note`.
pub fn noted(first: &mut FirstFault, place: usize, problem: BindProblem)
    ensures { first_view first.new ≡ earlier (first_view first.old)
        (Some (record { place = place; problem = problem_view problem })) }
{
    first.note(place, problem)
}
