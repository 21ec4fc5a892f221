//! The values of leaves below an instance.

ghost use Rattle.std.specs.Prelude.{◌≡◌, map, option_map, length};
ghost use Rattle.dr_meaning.specs.Rows.{value_in};
ghost use Rattle.dr_nested.specs.PathView.{step_view, lent_path, paths_view};
ghost use Rattle.dr_levels.specs.Views.{lent_value};
ghost use Rattle.dr_rows.specs.Views.{lent_instance, lent_cells};
ghost use Rattle.dr_rows.specs.Walking.{behind, filled, filled_one};

use crate::instance_ref::InstanceRef;
use dr_levels::ValueRef;
use dr_nested::{Path, Step};

/// What a path has behind another one that it begins with; none where it doesn't begin with that.
fn steps_behind<'p>(front: &[Step], path: &'p [Step]) -> Option<&'p [Step]>
    ensures { option_map lent_path result ≡ behind (map step_view front.now) (map step_view path.now) }
{
    match front {
        [] => Some(path),
        [step, front_rest @ ..] => match path {
            [] => None,
            [beside, path_rest @ ..] => {
                if step.place == beside.place {
                    steps_behind(front_rest, path_rest)
                } else {
                    None
                }
            }
        },
    }
}

/// The value at a path below an instance: none where anything on the path is absent.
fn value_below<'n>(steps: &[Step], instance: InstanceRef<'n>) -> Option<ValueRef<'n>>
    ensures { option_map lent_value result ≡ value_in (map step_view steps.now) (lent_instance instance.entry) }
{
    match steps {
        [] => match instance {
            InstanceRef::Atom(value) => Some(ValueRef::of(value)),
            InstanceRef::Group(_) => None,
        },
        [step, rest @ ..] => match instance.instances_at(step.place) {
            [] => None,
            [first, ..] => value_below(rest, InstanceRef::of(first)),
        },
    }
}

/// A leaf's value: that below an instance at the end of a path, or the one that it had where it is not below it.
fn value_of<'n>(
    leaf: &Path,
    front: &[Step],
    instance: InstanceRef<'n>,
    value: Option<ValueRef<'n>>,
) -> Option<ValueRef<'n>>
    ensures { option_map lent_value result ≡ filled_one
        (behind (map step_view front.now) (map step_view (leaf.now).steps.items)) (lent_instance instance.entry)
        (option_map lent_value value.entry) }
{
    match steps_behind(front, &leaf.steps) {
        Some(rest) => value_below(rest, instance),
        None => value,
    }
}

/// Takes the values of the leaves below an instance at the end of a path from it.
pub fn fill<'n>(
    leaves: &[Path],
    front: &[Step],
    instance: InstanceRef<'n>,
    values: &mut [Option<ValueRef<'n>>],
)
    requires { length values.old ≡ length leaves.now }
    ensures { lent_cells values.new ≡ filled (map step_view front.now) (lent_instance instance.entry)
        (paths_view leaves.now) (lent_cells values.old) }
{
    'leaves: for number in 0..leaves.len() {
        let value = values[number];
        values[number] = value_of(&leaves[number], front, instance, value);
    }
}
