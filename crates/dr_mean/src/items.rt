//! The items of a record query.

ghost use Rattle.std.specs.Prelude.{◌≡◌, map, true};
ghost use Rattle.std.specs.List.{list_all};
ghost use Rattle.dr_nested.specs.PathView.{path_view};
ghost use Rattle.dr_plan.specs.Fitting.{record_term_fits};
ghost use Rattle.dr_plan.specs.declared.plan.RecordItem.{RecordItem};

use dr_nested::Path;
use dr_plan::RecordItem;

/// The items of a record query, and the leaves that they use.
#[derive(Clone, Copy)]
pub struct Items<'p> {
    pub leaves: &'p [Path],
    pub items: &'p [RecordItem],
    pub ghost fit: { list_all (λ (i : RecordItem). record_term_fits (map path_view leaves.now) i.term) items.now
        ≡ true },
}
