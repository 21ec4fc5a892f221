//! Partials.

ghost use Rattle.std.specs.Prelude.{◌≡◌, ◌^◌};
ghost use Rattle.dr_group.specs.Views.{accumulator_view};
ghost use Rattle.dr_group.specs.Gathering.{empty_of, Becomes};
ghost use Rattle.dr_partials.specs.PartialBounds.{PartialCanBeOf};
ghost use Rattle.dr_plan.specs.Planned.{Planned};
ghost use Rattle.dr_group.specs.Partials.{partial_view, IsPartialOf, AreAlike};
ghost use Rattle.dr_partials.specs.Partials as meant;

use dr_group::{Accumulator, Gathering, Partial};
use dr_memory::NoMemory;
use std::alloc::Global;

/// As `Accumulator::new`.
pub fn accumulator_of(gathering: Gathering) -> Accumulator
    ensures { accumulator_view result ≡ empty_of gathering }
{
    Accumulator::new(gathering)
}

/// As `Partial::merge`.
pub fn merge_into(partial: &mut Partial, alloc: Global, other: Partial) -> Result<(), NoMemory>
    requires alike { AreAlike partial.old other }
    requires mine { PartialCanBeOf (2 ^ 60) (partial_view partial.old) }
    requires theirs { PartialCanBeOf (2 ^ 60) (partial_view other) }
    ensures partial { Becomes (partial_view partial.old) (partial_view partial.new)
        (meant.merge (partial_view partial.old) (partial_view other)) result }
    ensures of_plan { (p : Planned) → IsPartialOf p partial.old → IsPartialOf p partial.new }
{
    partial.merge(alloc, other)
}
