//! Values that are lent.

use crate::text_place::TextPlace;

/// The values of a stretch of triplets, lent: one slice of their kind.
#[derive(Clone, Copy)]
pub enum ValuesRef<'a> {
    Bools(&'a [bool]),
    Integers(&'a [i64]),
    /// Texts, by their places in a buffer.
    Texts {
        bytes: &'a [u8],
        places: &'a [TextPlace],
    },
}
