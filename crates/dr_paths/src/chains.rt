//! Chains of repeated fields on paths.

ghost use Rattle.std.specs.Prelude.{◌≡◌, map};
ghost use Rattle.dr_meaning.specs.Binding as binding;
ghost use Rattle.dr_meaning.specs.Expression as expression_meaning;
ghost use Rattle.dr_meaning.specs.Path as path_meaning;
ghost use Rattle.dr_paths.specs.Views.{bound_path_view, paths_at};
ghost use Rattle.dr_nested.specs.PathView.{step_view};

use crate::bound::BoundPath;
use dr_nested::{Rep, Step};

/// The steps of a path up to its last repeated field: none where no field is repeated.
pub fn chain_end(steps: &[Step]) -> &[Step]
    ensures { map step_view result.now ≡ path_meaning.chain_end (map step_view steps.now) }
{
    let mut rest = steps.len();
    'steps: while rest > 0 {
        if let Rep::Repeated = steps[rest - 1].rep {
            return &steps[..rest];
        }
        rest -= 1;
    }
    &steps[..rest]
}

/// The path with more steps, the first where they have as many.
pub fn longer<'p>(one: &'p [Step], other: &'p [Step]) -> &'p [Step]
    ensures { map step_view result.now ≡ path_meaning.longer (map step_view one.now) (map step_view other.now) }
{
    if one.len() < other.len() { other } else { one }
}

/// The longest chain of paths, the first of those with as many steps: none where there are no paths.
pub fn longest_chain(paths: &[BoundPath]) -> &[Step]
    ensures { map step_view result.now ≡ expression_meaning.longest_chain (paths_at (map bound_path_view paths.now)) }
{
    let mut longest: &[Step] = &[];
    let mut rest = paths.len();
    'paths: while rest > 0 {
        rest -= 1;
        longest = longer(chain_end(&paths[rest].leaf.steps), longest);
    }
    longest
}

/// The number of repeated fields on a path.
fn repeated_fields(steps: &[Step]) -> usize
    ensures { result ≡ path_meaning.max_repetition (map step_view steps.now) }
{
    let mut count = 0;
    'steps: for step in steps {
        if let Rep::Repeated = step.rep {
            count += 1;
        }
    }
    count
}

/// The chain with more repeated fields, the first where they have as many.
fn deeper<'p>(one: &'p [Step], other: &'p [Step]) -> &'p [Step]
    ensures { map step_view result.now ≡ binding.deeper_chain (map step_view one.now) (map step_view other.now) }
{
    if repeated_fields(one) < repeated_fields(other) {
        other
    } else {
        one
    }
}

/// The chain with the most repeated fields of paths that need not be related, the first of those with as many: none
/// where there are no paths.
pub fn deepest_chain(paths: &[BoundPath]) -> &[Step]
    ensures { map step_view result.now ≡ binding.deepest_chain (paths_at (map bound_path_view paths.now)) }
{
    let mut deepest: &[Step] = &[];
    let mut rest = paths.len();
    'paths: while rest > 0 {
        rest -= 1;
        deepest = deeper(chain_end(&paths[rest].leaf.steps), deepest);
    }
    deepest
}
