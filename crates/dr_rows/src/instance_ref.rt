//! Instances of fields, lent.

ghost use Rattle.std.specs.Prelude.{◌≡◌};
ghost use Rattle.dr_meaning.specs.Record as record_tree;
ghost use Rattle.dr_nested.specs.Views.{instance_view, instances_view};
ghost use Rattle.dr_rows.specs.Views.{lent_instance};

use dr_nested::{Instance, Node, Value, instances_at};

/// An instance of a field, lent: a leaf's value, or a group's node. A record is lent as a group's node too.
#[derive(Clone, Copy)]
pub enum InstanceRef<'n> {
    Atom(&'n Value),
    Group(&'n Node),
}

impl<'n> InstanceRef<'n> {
    /// An instance, lent.
    pub fn of(instance: &'n Instance) -> InstanceRef<'n>
        ensures { lent_instance result ≡ instance_view instance.now }
    {
        match instance {
            Instance::Atom(value) => InstanceRef::Atom(value),
            Instance::Group(node) => InstanceRef::Group(node),
        }
    }

    /// Its instances of the field at a place: a leaf's value has none.
    pub fn instances_at(self, place: usize) -> &'n [Instance]
        ensures { instances_view result.now ≡ record_tree.instances_in place (lent_instance self.entry) }
    {
        match self {
            InstanceRef::Atom(_) => &[],
            InstanceRef::Group(node) => instances_at(node, place),
        }
    }
}
