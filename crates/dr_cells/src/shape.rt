//! The shape of result objects.

/// An object: the names of its values, and then its lists.
#[cycle(shape)]
#[derive(Drop)]
pub struct Shape {
    pub names: Vec<String>,
    pub lists: Vec<ListShape>,
}

/// A list in an object: its name, and the shape of its objects.
#[cycle(shape)]
#[derive(Drop)]
pub struct ListShape {
    pub name: String,
    pub shape: Shape,
}
