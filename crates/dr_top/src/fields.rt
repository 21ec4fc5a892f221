//! The leaves that FIELD words name.

ghost use Rattle.std.specs.Prelude.{◌≡◌, [], Ok, map, string_bytes, IfOk, IfErr, OnOk};
ghost use Rattle.std.specs.List.{list_any};
ghost use Rattle.dr_meaning.specs.Path as path_meaning;
ghost use Rattle.dr_meaning.specs.Fsm.{with_leaf, named_leaves};
ghost use Rattle.dr_nested.specs.Views.{fields_view};
ghost use Rattle.dr_nested.specs.PathView.{path_view, step_view};
ghost use Rattle.dr_nested.specs.declared.path.Path.{Path};
ghost use Rattle.dr_top.specs.Stops.{FieldStops};

use crate::field::{FieldFault, find_field};
use dr_memory::NoMemory;
use dr_nested::{Path, Schema};
use dr_paths::same_path;
use std::alloc::Global;

/// Whether a leaf is among others.
fn is_among(leaves: &[Path], leaf: &Path) -> bool
    ensures { result ≡ list_any (λ (m : Path). path_meaning.same_path (path_view leaf.now).path (path_view m).path)
        leaves.now }
{
    leaves
        .iter()
        .any(|other| same_path(&leaf.steps, &other.steps))
}

/// Appends a leaf, unless it is there.
fn add_leaf(leaves: &mut Vec<Path>, leaf: Path) -> Result<(), NoMemory>
    ensures { OnOk result (map path_view (leaves.new).items
        ≡ with_leaf (map path_view (leaves.old).items) (path_view leaf)) }
{
    if is_among(leaves, &leaf) {
        return Ok(());
    }
    leaves.push(leaf)?;
    Ok(())
}

/// The leaves that FIELD words name, each once.
///
/// Errors: the first word that is refused; want of memory.
pub fn find_fields(
    alloc: Global,
    schema: &Schema,
    texts: &[String],
) -> Result<Vec<Path>, FieldFault>
    ensures leaves { IfOk result (λ v. named_leaves (fields_view (schema.now).fields.items) [] 0
        (map string_bytes texts.now) ≡ Ok (map path_view v.items)) }
    ensures stops { IfErr result (FieldStops (named_leaves (fields_view (schema.now).fields.items) [] 0
        (map string_bytes texts.now))) }
{
    let mut leaves = Vec::new(alloc);
    'texts: for (number, text) in texts.iter().enumerate() {
        let leaf = find_field(alloc, schema, text.as_str(), number)?;
        add_leaf(&mut leaves, leaf)?;
    }
    Ok(leaves)
}
