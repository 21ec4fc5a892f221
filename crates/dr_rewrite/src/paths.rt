//! Paths, by the names on them.

ghost use Rattle.std.specs.Prelude.{◌≡◌, ◌++◌, map, option_copied, string_bytes, OnOk};
ghost use Rattle.std.specs.List.{slice_get};
ghost use Rattle.dr_meaning.specs.Schema.{group};
ghost use Rattle.dr_nested.specs.PathView.{step_view};
ghost use Rattle.dr_nested.specs.Views.{fields_view};
ghost use Rattle.dr_partials.specs.RewritingText as meant;
ghost use Rattle.dr_plan.specs.Views.{path_of};
ghost use Rattle.dr_rewrite.specs.Writing.{dotted, written_leaves, written_path};

use crate::names::push_name;
use dr_nested::{Field, Path, Schema, Shape, Step};
use std::alloc::AllocError;

/// By what a plan is written: the schema that has the names, and the plan's leaves.
#[derive(Clone, Copy)]
pub(crate) struct Names<'n> {
    pub schema: &'n Schema,
    pub leaves: &'n [Path],
}

/// The field at a place of a group.
fn field_at(fields: &Vec<Field>, place: usize) -> Option<&Field>
    ensures { option_copied result ≡ slice_get (fields.now).items place }
{
    fields.get(place)
}

/// Appends the names on a path below a group, with a dot between, and something before the first.
fn push_names(
    fields: &Vec<Field>,
    steps: &[Step],
    before: &str,
    out: &mut String,
) -> Result<(), AllocError>
    ensures { OnOk result (string_bytes out.new
        ≡ string_bytes out.old ++ dotted before.now
        (meant.path_names (map step_view steps.now) (group (fields_view (fields.now).items)))) }
{
    match steps {
        [] => Ok(()),
        [step, behind @ ..] => match field_at(fields, step.place) {
            None => Ok(()),
            Some(field) => {
                out.push_str(before)?;
                push_name(field.name.as_str(), out)?;
                match &field.shape {
                    Shape::Leaf(_) => Ok(()),
                    Shape::Group(inner) => push_names(inner, behind, ".", out),
                }
            }
        },
    }
}

/// Appends a path: its names, joined by dots.
pub(crate) fn push_path(
    names: &Names<'_>,
    steps: &[Step],
    out: &mut String,
) -> Result<(), AllocError>
    ensures { OnOk result (string_bytes out.new
        ≡ string_bytes out.old ++ written_path names.now (map step_view steps.now)) }
{
    push_names(&names.schema.fields, steps, "", out)
}

/// Appends the path of the leaf of this number.
pub(crate) fn push_leaf(leaf: u32, names: &Names<'_>, out: &mut String) -> Result<(), AllocError>
    ensures { OnOk result (string_bytes out.new
        ≡ string_bytes out.old ++ written_path names.now (path_of (slice_get (written_leaves names.now) leaf))) }
{
    match names.leaves.get(leaf as usize) {
        Some(path) => push_path(names, &path.steps, out),
        None => Ok(()),
    }
}
