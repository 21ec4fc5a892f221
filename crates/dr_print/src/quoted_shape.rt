//! Shapes whose names are in quotes.

/// An object: the names of its values in quotes, each with a colon, and then its lists.
#[cycle(quoted)]
#[derive(Drop)]
pub struct QuotedShape {
    pub names: Vec<String>,
    pub lists: Vec<QuotedList>,
}

/// A list in an object: its name in quotes, with a colon, and the shape of its objects.
#[cycle(quoted)]
#[derive(Drop)]
pub struct QuotedList {
    pub name: String,
    pub shape: QuotedShape,
}
