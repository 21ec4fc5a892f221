//! How large a record is.

ghost use Rattle.std.specs.Prelude.{◌≡◌, ◌+◌};
ghost use Rattle.dr_nested.specs.Views.{node_view, slots_view, slot_view, instance_view, instances_view};
ghost use Rattle.dr_json.specs.Size as meant;
ghost use Rattle.dr_json.specs.Size.{capped};

use dr_nested::{Instance, Node, Slot, Value};

/// How many instances of fields there are, and how many bytes their texts have together; the greatest number where
/// there are more.
#[derive(Clone, Copy, PartialEq, Eq)]
pub struct Size {
    pub instances: u64,
    pub text_bytes: u64,
}

impl Size {
    pub(crate) const NOTHING: Size = Size {
        instances: 0,
        text_bytes: 0,
    };

    #[inline(always)]
    pub(crate) fn plus(self, other: Size) -> Size
        ensures instances { result.instances ≡ capped (self.instances + other.instances) }
        ensures text_bytes { result.text_bytes ≡ capped (self.text_bytes + other.text_bytes) }
    {
        Size {
            instances: self.instances.saturating_add(other.instances),
            text_bytes: self.text_bytes.saturating_add(other.text_bytes),
        }
    }

    #[inline(always)]
    pub(crate) fn plus_instance(self) -> Size
        ensures instances { result.instances ≡ capped (self.instances + 1) }
        ensures text_bytes { result.text_bytes ≡ self.text_bytes }
    {
        Size {
            instances: self.instances.saturating_add(1),
            text_bytes: self.text_bytes,
        }
    }
}

/// The size of a record, or of an instance of a group.
#[cycle(size)]
pub fn node_size(node: &Node) -> Size
    ensures { result ≡ meant.node_size (node_view node.now) }
{
    slots_size(&node.slots)
}

#[cycle(size)]
fn slots_size(slots: &[Slot]) -> Size
    ensures { result ≡ meant.node_size (slots_view slots.now) }
{
    let mut total = Size::NOTHING;
    for slot in slots {
        total = total.plus(slot_size(slot));
    }
    total
}

#[cycle(size)]
fn slot_size(slot: &Slot) -> Size
    ensures { result ≡ meant.slot_size (slot_view slot.now) }
{
    match slot {
        Slot::Gap => Size::NOTHING,
        Slot::Held(instances) => instances_size(instances),
    }
}

#[cycle(size)]
fn instances_size(instances: &[Instance]) -> Size
    ensures { result ≡ meant.instances_size (instances_view instances.now) }
{
    let mut total = Size::NOTHING;
    for instance in instances {
        total = total.plus(instance_size(instance).plus_instance());
    }
    total
}

/// The size of what is in an instance.
#[cycle(size)]
fn instance_size(instance: &Instance) -> Size
    ensures { result ≡ meant.instance_size (instance_view instance.now) }
{
    match instance {
        Instance::Atom(Value::Text(text)) => Size {
            instances: 0,
            text_bytes: text.len() as u64,
        },
        Instance::Atom(Value::Bool(_) | Value::Int(_)) => Size::NOTHING,
        Instance::Group(node) => node_size(node),
    }
}
