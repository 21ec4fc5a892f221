//! Records without the fields that no selected path goes through.

ghost use Rattle.std.specs.Prelude.{◌≡◌, map, IfOk, option_map};
ghost use Rattle.dr_meaning.specs.Record as record_tree;
ghost use Rattle.dr_nested.specs.Views.{instance_view, instances_view, slot_view, node_view};
ghost use Rattle.dr_nested.specs.PathView.{path_view};
ghost use Rattle.dr_nested.specs.Selected.{kept, kept_all, kept_one, kept_slot};
ghost use Rattle.dr_nested.specs.SelectionView.{selection_view, lent_selection};

use crate::copying::copy_value;
use crate::path::Path;
use crate::record::{Instance, Node, Slot};
use crate::selection::{Selection, select};
use dr_memory::NoMemory;
use std::alloc::{AllocError, Global};

#[cycle(projecting)]
fn project_instance(
    alloc: Global,
    instance: &Instance,
    selected: &Selection,
) -> Result<Instance, AllocError>
    ensures { IfOk result (λ x. instance_view x ≡ kept_one (selection_view selected.now) (instance_view instance.now)) }
{
    match instance {
        Instance::Atom(value) => Ok(Instance::Atom(copy_value(alloc, value)?)),
        Instance::Group(node) => Ok(Instance::Group(project_node(alloc, node, selected)?)),
    }
}

#[cycle(projecting)]
fn project_instances(
    alloc: Global,
    instances: &Vec<Instance>,
    selected: &Selection,
) -> Result<Vec<Instance>, AllocError>
    ensures { IfOk result (λ v. instances_view v.items
        ≡ kept_all (selection_view selected.now) (instances_view (instances.now).items)) }
{
    let mut kept = Vec::with_capacity(alloc, instances.len())?;
    'instances: for instance in instances {
        kept.push(project_instance(alloc, instance, selected)?)?;
    }
    Ok(kept)
}

/// A slot, or a gap where nothing of it is selected.
#[cycle(projecting)]
fn project_slot(
    alloc: Global,
    slot: &Slot,
    selected: Option<&Selection>,
) -> Result<Slot, AllocError>
    ensures { IfOk result (λ s. slot_view s ≡ kept_slot (option_map lent_selection selected.entry)
        (slot_view slot.now)) }
{
    match (slot, selected) {
        (Slot::Held(instances), Some(selected)) => {
            Ok(Slot::Held(project_instances(alloc, instances, selected)?))
        }
        (Slot::Held(_), None) => Ok(Slot::Gap),
        (Slot::Gap, _) => Ok(Slot::Gap),
    }
}

#[cycle(projecting)]
fn project_node(alloc: Global, node: &Node, selected: &Selection) -> Result<Node, AllocError>
    ensures { IfOk result (λ n. node_view n ≡ kept (selection_view selected.now) (node_view node.now)) }
{
    let mut slots = Vec::with_capacity(alloc, node.slots.len())?;
    'slots: for (place, slot) in node.slots.iter().enumerate() {
        slots.push(project_slot(alloc, slot, selected.at(place))?)?;
    }
    Ok(Node { slots })
}

/// A record without the fields that lie on no path to the selected leaves: gaps stand in their places. Groups that
/// stay are kept, even empty ones. What is selected is found once, and the record is gone through once.
///
/// Errors: want of memory alone.
pub fn project(alloc: Global, fields: &[Path], node: &Node) -> Result<Node, NoMemory>
    ensures { IfOk result (λ n. node_view n ≡ record_tree.project (map (λ (p : Path). (path_view p).path) fields.now)
        (node_view node.now)) }
{
    let selected = select(alloc, fields)?;
    Ok(project_node(alloc, node, &selected)?)
}
