//! Bound parts of a query.

ghost use Rattle.std.specs.Prelude.{IfOk, OnOk};
ghost use Rattle.dr_resolve.specs.Faults.{Notes};
ghost use Rattle.dr_resolve.specs.Outcomes.{fields_in, leaves_in};
ghost use Rattle.dr_resolve.specs.Parts.{AreParts};
ghost use Rattle.dr_meaning.specs.Binding as binding;
ghost use Rattle.dr_sql.specs.Views as syntax;

use dr_memory::NoMemory;
use dr_resolve::{Binder, BoundParts, FirstFault};
use dr_sql::Query;

/// As `Binder::parts`.
pub fn parts_of(
    binder: Binder<'_>,
    query: &Query<'_>,
    first: &mut FirstFault,
) -> Result<BoundParts, NoMemory>
    ensures parts { IfOk result (λ p. AreParts (fields_in binder.entry) (leaves_in binder.entry)
        (binding.bind_parts (fields_in binder.entry) (syntax.query_view query.now)) p) }
    ensures first { OnOk result (Notes
        (binding.part_faults (binding.bind_parts (fields_in binder.entry) (syntax.query_view query.now))) first.old
        first.new) }
{
    binder.parts(query, first)
}
