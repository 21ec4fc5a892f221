//! The chains of a plan's terms.

ghost use Rattle.std.specs.Prelude.{◌≡◌, map};
ghost use Rattle.dr_nested.specs.PathView.{step_view, path_view};
ghost use Rattle.dr_plan.specs.Views.{record_term_view};
ghost use Rattle.dr_meaning.specs.Query.{term_chain};

use dr_nested::{Path, Step};
use dr_paths::{chain_end, expression_chain};
use dr_plan::RecordTerm;

/// The chain to whose end's instances an item belongs: that of its expression, or of its node.
pub(crate) fn chain_of_term<'p>(leaves: &'p [Path], term: &'p RecordTerm) -> &'p [Step]
    ensures { map step_view result.now ≡ term_chain (record_term_view (map path_view leaves.now) term.now) }
{
    match term {
        RecordTerm::Value(value) => expression_chain(leaves, value),
        RecordTerm::Within(within) => chain_end(&within.node),
    }
}
