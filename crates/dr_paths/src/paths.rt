//! Paths beside one another.

ghost use Rattle.std.specs.Prelude.{◌≡◌, map};
ghost use Rattle.dr_meaning.specs.Path as path_meaning;
ghost use Rattle.dr_nested.specs.PathView.{step_view};

use dr_nested::Step;

/// Whether a path begins with another.
pub fn begins_with(front: &[Step], path: &[Step]) -> bool
    ensures { result ≡ path_meaning.begins_with (map step_view front.now) (map step_view path.now) }
{
    match front {
        [] => true,
        [first, rest @ ..] => match path {
            [] => false,
            [step, steps @ ..] => first.place == step.place && begins_with(rest, steps),
        },
    }
}

/// Whether two paths lead through the same fields.
pub fn same_path(one: &[Step], other: &[Step]) -> bool
    ensures { result ≡ path_meaning.same_path (map step_view one.now) (map step_view other.now) }
{
    begins_with(one, other) && begins_with(other, one)
}
