//! What leaves have in common: the fronts of their paths.

ghost use Rattle.std.specs.Prelude.{◌≡◌, ◌≤◌, ◌<◌, ◌+◌, length, map};
ghost use Rattle.dr_meaning.specs.Path.{max_repetition, max_definition};
ghost use Rattle.dr_meaning.specs.Schema as tree;
ghost use Rattle.dr_nested.specs.PathView.{path_view, paths_view, step_view};
ghost use Rattle.dr_beside.specs.Neighbours.{shared, front};
ghost use Rattle.dr_agreement.specs.Fronts.{IsFront};

use dr_nested::{Path, Rep, Step};

/// The front of a path: how many fields it has, how many of them are repeated, and how many may be absent.
#[derive(Clone, Copy)]
pub struct Front {
    pub steps: u8,
    pub repeated: u8,
    pub defined: u8,
}

/// No field.
fn no_front() -> Front
    ensures { result ≡ record { steps = 0; repeated = 0; defined = 0 } }
{
    Front {
        steps: 0,
        repeated: 0,
        defined: 0,
    }
}

/// One field more.
fn with_step(front: Front, step: &Step) -> Front
    requires steps { front.steps < 255 }
    requires repeated { front.repeated < 255 }
    requires defined { front.defined < 255 }
    ensures steps { result.steps ≡ front.steps + 1 }
    ensures repeated { result.repeated ≡ tree.repetition_count (step_view step.now).repetition + front.repeated }
    ensures defined { result.defined ≡ tree.definition_count (step_view step.now).repetition + front.defined }
{
    match step.rep {
        Rep::Required => Front {
            steps: front.steps + 1,
            repeated: front.repeated,
            defined: front.defined,
        },
        Rep::Optional => Front {
            steps: front.steps + 1,
            repeated: front.repeated,
            defined: front.defined + 1,
        },
        Rep::Repeated => Front {
            steps: front.steps + 1,
            repeated: front.repeated + 1,
            defined: front.defined + 1,
        },
    }
}

/// The common front of two paths.
fn common_front(one: &[Step], other: &[Step]) -> Front
    requires { length one.now ≤ tree.greatest_depth }
    ensures steps { result.steps ≡ shared (map step_view one.now) (map step_view other.now) }
    ensures repeated { result.repeated ≡ max_repetition (front (map step_view one.now) (map step_view other.now)) }
    ensures defined { result.defined ≡ max_definition (front (map step_view one.now) (map step_view other.now)) }
    ensures short { result.steps ≤ length one.now }
    ensures few_repeated { result.repeated ≤ length one.now }
    ensures few_defined { result.defined ≤ length one.now }
{
    match one {
        [] => no_front(),
        [step, rest @ ..] => match other {
            [] => no_front(),
            [beside, others @ ..] => {
                if step.place == beside.place {
                    with_step(common_front(rest, others), step)
                } else {
                    no_front()
                }
            }
        },
    }
}

/// The common front of two leaves, by their numbers.
pub fn front_of(leaves: &[Path], one: usize, other: usize) -> Front
    requires one { one < length leaves.now }
    requires other { other < length leaves.now }
    ensures { IsFront (paths_view leaves.now) one other result }
{
    common_front(&leaves[one].steps, &leaves[other].steps)
}
