//! Values side by side, dense by kind.

/// Where a text stands in the bytes that it was read from.
#[derive(Clone, Copy, PartialEq, Eq)]
pub struct TextPlace {
    /// The place of its first byte.
    pub start: usize,
    /// How many bytes it has.
    pub length: usize,
}

/// Values of one kind, in order. Texts are places in the bytes that they were read from; nothing is borrowed.
#[derive(PartialEq, Eq, Drop)]
pub enum Values {
    Bools(Vec<bool>),
    Integers(Vec<i64>),
    Texts(Vec<TextPlace>),
}

/// Why bytes have no values.
#[derive(Clone, Copy, PartialEq, Eq)]
pub enum PlainFault {
    NoMemory,
    /// The bytes end before.
    Short,
    /// A text is not UTF-8.
    BadText,
}

/// Why a dictionary has no values at some indices.
#[derive(Clone, Copy, PartialEq, Eq)]
pub enum PickFault {
    NoMemory,
    /// An index is not below the dictionary's size.
    BadIndex,
}
