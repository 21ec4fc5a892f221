//! Why the bytes give no number.

/// The bytes end before.
#[derive(Clone, Copy, PartialEq, Eq)]
pub struct Short;

/// Why the bytes begin with no variable-length number.
#[derive(Clone, Copy, PartialEq, Eq)]
pub enum VarintFault {
    /// The bytes end before: fewer than ten are left, and another one follows each.
    Short,
    /// Nine bytes go on, and the tenth is above 1: no number below 2^64.
    TooLong,
}
