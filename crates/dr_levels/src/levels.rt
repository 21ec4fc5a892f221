//! The levels of paths.

ghost use Rattle.std.specs.Prelude.{◌≡◌, ◌≤◌, length, map};
ghost use Rattle.dr_meaning.specs.Path as path_meaning;
ghost use Rattle.dr_meaning.specs.Schema as tree;
ghost use Rattle.dr_nested.specs.PathView.{path_view, step_view};

use dr_nested::{Path, Rep, Step};

/// What a field adds to the repetition level: 1 where it is repeated.
fn repetition_count(step: &Step) -> u32
    ensures { result ≡ tree.repetition_count (step_view step.now).repetition }
{
    match step.rep {
        Rep::Required | Rep::Optional => 0,
        Rep::Repeated => 1,
    }
}

/// What a field adds to the definition level: 1 where it may be absent.
fn definition_count(step: &Step) -> u32
    ensures { result ≡ tree.definition_count (step_view step.now).repetition }
{
    match step.rep {
        Rep::Required => 0,
        Rep::Optional | Rep::Repeated => 1,
    }
}

/// A path's greatest repetition level: the number of its repeated fields.
pub fn max_r(path: &Path) -> u32
    ensures { result ≡ path_meaning.max_repetition (path_view path.now).path }
{
    let mut level = 0;
    'steps: for step in path.steps.iter() {
        level += repetition_count(step);
    }
    level
}

/// A path's greatest definition level: the number of its fields that may be absent.
pub fn max_d(path: &Path) -> u32
    ensures level { result ≡ path_meaning.max_definition (path_view path.now).path }
    ensures within { result ≤ tree.greatest_depth }
{
    let mut level = 0;
    'steps: for step in path.steps.iter() {
        level += definition_count(step);
    }
    level
}

/// The number of repeated fields on the common front of two lists of steps.
fn common_steps(one: &[Step], other: &[Step]) -> u32
    requires { length one.now ≤ tree.greatest_depth }
    ensures common { result ≡ path_meaning.common (map step_view one.now) (map step_view other.now) }
    ensures short { result ≤ length one.now }
{
    match one {
        [] => 0,
        [step, rest @ ..] => match other {
            [] => 0,
            [beside, others @ ..] => {
                if step.place == beside.place {
                    repetition_count(step) + common_steps(rest, others)
                } else {
                    0
                }
            }
        },
    }
}

/// The common level of two paths: the number of repeated fields on their common front.
pub fn common(one: &Path, other: &Path) -> u32
    ensures { result ≡ path_meaning.common (path_view one.now).path (path_view other.now).path }
{
    common_steps(&one.steps, &other.steps)
}
