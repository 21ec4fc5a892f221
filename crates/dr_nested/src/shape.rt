//! Fields and their shapes.

/// How often a field stands in its group: exactly once, at most once, or any number of times.
#[derive(Clone, Copy, PartialEq, Eq)]
pub enum Rep {
    Required,
    Optional,
    Repeated,
}

/// The values of a leaf: truth values, whole numbers of 32 or 64 bits, or texts.
#[derive(Clone, Copy, PartialEq, Eq)]
pub enum Kind {
    Bool,
    I32,
    I64,
    Text,
}

/// What a field is: a leaf of a kind, or a group of fields.
#[cycle(shape)]
#[derive(Drop)]
pub enum Shape {
    Leaf(Kind),
    Group(Vec<Field>),
}

/// A field of a group.
#[cycle(shape)]
#[derive(Drop)]
pub struct Field {
    pub name: String,
    pub rep: Rep,
    pub shape: Shape,
}
