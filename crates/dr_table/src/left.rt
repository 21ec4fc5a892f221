//! Tablets that are left.

use dr_outside::Cause;

/// A copy of a tablet that was tried, by the number of its directory, and the cause for which it gave nothing.
#[derive(Clone, Copy, PartialEq, Eq)]
pub struct Tried {
    pub directory: u32,
    pub cause: Cause,
}

/// A tablet that is left: none of its copies gave records. They stand in the order in which they were tried.
#[derive(PartialEq, Eq, Drop)]
pub struct LeftTablet {
    pub tablet: u32,
    pub tried: Vec<Tried>,
}
