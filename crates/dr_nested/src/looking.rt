//! Looking into a node.

ghost use Rattle.std.specs.Prelude.{◌≡◌};
ghost use Rattle.dr_meaning.specs.Record as record_tree;
ghost use Rattle.dr_nested.specs.Views.{instances_view, node_view};

use crate::record::{Instance, Node, Slot};

/// The instances of the field at a place of a node: none where the node has a gap there, or no such place.
pub fn instances_at(node: &Node, place: usize) -> &[Instance]
    ensures { instances_view result.now ≡ record_tree.instances_at place (node_view node.now) }
{
    match node.slots.get(place) {
        Some(Slot::Held(instances)) => instances.as_slice(),
        Some(Slot::Gap) => &[],
        None => &[],
    }
}
