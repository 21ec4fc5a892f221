//! Which path isn't related to an earlier one.

ghost use Rattle.std.specs.Prelude.{◌≡◌, [], List, map, IfOk, IfErr};
ghost use Rattle.dr_meaning.specs.BoundExpression as meant;
ghost use Rattle.dr_meaning.specs.Path as path_meaning;
ghost use Rattle.dr_paths.specs.Related.{Spans, joined_before};
ghost use Rattle.dr_paths.specs.Views.{bound_path_view};
ghost use Rattle.dr_nested.specs.PathView.{step_view};

use crate::bound::BoundPath;
use crate::chains::chain_end;
use crate::paths::begins_with;
use dr_nested::Step;

/// Goes through paths in order, from the longest chain of the earlier ones.
/// Returns the longest chain with these paths too.
///
/// Errors: the place of the first path that isn't related to an earlier one.
pub fn first_unrelated<'p>(longest: &'p [Step], paths: &'p [BoundPath]) -> Result<&'p [Step], usize>
    ensures related { IfOk result (λ l. (earlier : List (List path_meaning.Step))
        → Spans earlier (map step_view longest.now)
        → (meant.unrelated_after earlier (map bound_path_view paths.now)
        ≡ []) × Spans (joined_before earlier (map bound_path_view paths.now)) (map step_view l.now)) }
    ensures unrelated { IfErr result (λ place. (earlier : List (List path_meaning.Step))
        → Spans earlier (map step_view longest.now)
        → meant.unrelated_after earlier (map bound_path_view
        paths.now) ≡ meant.fault_at place meant.BindProblem.unrelated) }
{
    let mut known = longest;
    'paths: for path in paths {
        let own = chain_end(&path.leaf.steps);
        if begins_with(known, own) {
            known = own;
        } else if !begins_with(own, known) {
            return Err(path.place);
        }
    }
    Ok(known)
}
