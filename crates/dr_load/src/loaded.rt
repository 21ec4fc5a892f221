//! What is loaded.

/// How many tablets and records are loaded.
#[derive(Clone, Copy, PartialEq, Eq)]
pub struct Loaded {
    pub tablets: u32,
    pub records: u64,
}
