//! Records: trees that give each field of a group its instances.

/// The value of a leaf.
#[derive(Drop, PartialEq, Eq)]
pub enum Value {
    Bool(bool),
    Int(i64),
    Text(String),
}

/// An instance of a field: a leaf's value, or a group's node.
#[cycle(node)]
#[derive(Drop)]
pub enum Instance {
    Atom(Value),
    Group(Node),
}

/// A field's place in a node: its instances in order, or a gap where a projection dropped the field.
#[cycle(node)]
#[derive(Drop)]
pub enum Slot {
    Gap,
    Held(Vec<Instance>),
}

/// A record, or an instance of a group: a slot for each field of the group, in schema order.
#[cycle(node)]
#[derive(Drop)]
pub struct Node {
    pub slots: Vec<Slot>,
}
