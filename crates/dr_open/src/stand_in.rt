//! The leaf of a file that stands in for one that a group lacks.

ghost use Rattle.std.specs.Prelude.{◌≡◌, ◌≤◌, ◌+◌, Some, map, take, length, string_bytes, option_map, IfOk};
ghost use Rattle.dr_meaning.specs.Path as path_meaning;
ghost use Rattle.dr_meaning.specs.Schema.{greatest_depth};
ghost use Rattle.dr_nested.specs.Views.{fields_view};
ghost use Rattle.dr_nested.specs.PathView.{path_view, step_view};
ghost use Rattle.dr_open.specs.LeafView.{leaf_view};
ghost use Rattle.dr_open.specs.Sources.{first_leaf, first_leaf_at, bare_step};

use dr_memory::NoMemory;
use dr_nested::{Field, Kind, Path, Rep, Shape, Step};
use std::alloc::Global;

/// The greatest levels of a group.
#[derive(Clone, Copy)]
pub(crate) struct GroupLevels {
    pub repetition: u8,
    pub definition: u8,
}

/// The greatest levels of the group to which a path leads.
pub(crate) fn group_levels(steps: &[Step]) -> GroupLevels
    requires { length steps.now ≤ greatest_depth }
    ensures repetition { result.repetition ≡ path_meaning.max_repetition (map step_view steps.now) }
    ensures definition { result.definition ≡ path_meaning.max_definition (map step_view steps.now) }
{
    let mut repetition = 0;
    let mut definition = 0;
    'steps: for step in steps {
        match step.rep {
            Rep::Required => {}
            Rep::Optional => definition += 1,
            Rep::Repeated => {
                definition += 1;
                repetition += 1;
            }
        }
    }
    GroupLevels {
        repetition,
        definition,
    }
}

/// Texts of their own that equal these.
fn copied_names(alloc: Global, names: &[String]) -> Result<Vec<String>, NoMemory>
    ensures { IfOk result (λ v. map string_bytes v.items ≡ map string_bytes names.now) }
{
    let mut copies = Vec::with_capacity(alloc, names.len())?;
    'names: for name in names {
        copies.push(String::from_str(alloc, name.as_str())?)?;
    }
    Ok(copies)
}

/// Steps of these repetitions, whose places are 0.
fn bare_steps(alloc: Global, steps: &[Step]) -> Result<Vec<Step>, NoMemory>
    ensures { IfOk result (λ v. map step_view v.items ≡ map bare_step (map step_view steps.now)) }
{
    let mut copies = Vec::with_capacity(alloc, steps.len())?;
    'steps: for step in steps {
        copies.push(Step {
            place: 0,
            rep: step.rep,
        })?;
    }
    Ok(copies)
}

/// Appends the names and the steps that lead to the first leaf of fields, and gives its kind; none where there are no
/// fields.
fn push_first_leaf(
    alloc: Global,
    fields: &Vec<Field>,
    names: &mut Vec<String>,
    steps: &mut Vec<Step>,
) -> Result<Option<Kind>, NoMemory>
    ensures { IfOk result (λ o. option_map (λ k. leaf_view names.new.items steps.new.items k) o
        ≡ first_leaf_at (map string_bytes names.old.items) (map step_view steps.old.items)
        (fields_view (fields.now).items)) }
{
    let Some(field) = fields.first() else {
        return Ok(None);
    };
    names.push(String::from_str(alloc, field.name.as_str())?)?;
    steps.push(Step {
        place: 0,
        rep: field.rep,
    })?;
    match &field.shape {
        Shape::Leaf(kind) => Ok(Some(*kind)),
        Shape::Group(fields) => push_first_leaf(alloc, fields, names, steps),
    }
}

/// The first leaf of the open part of a group, to which the first so many parts of a path lead; none where nothing of
/// the group is open.
///
/// Errors: want of memory alone.
pub(crate) fn first_leaf_behind(
    alloc: Global,
    path: &Path,
    parts: usize,
    fields: &Vec<Field>,
) -> Result<Option<Path>, NoMemory>
    requires names { parts ≤ length (path.now).names.items }
    requires steps { parts ≤ length (path.now).steps.items }
    requires short { (l : path_meaning.Leaf) → first_leaf (fields_view (fields.now).items) ≡ Some l → parts
        + length l.path ≤ greatest_depth }
    ensures { IfOk result (λ o. option_map path_view o
        ≡ first_leaf_at (take parts (path_view path.now).names)
        (map bare_step (take parts (path_view path.now).path)) (fields_view (fields.now).items)) }
{
    let mut names = copied_names(alloc, &path.names[..parts])?;
    let mut steps = bare_steps(alloc, &path.steps[..parts])?;
    match push_first_leaf(alloc, fields, &mut names, &mut steps)? {
        Some(kind) => Ok(Some(Path { names, steps, kind })),
        None => Ok(None),
    }
}
