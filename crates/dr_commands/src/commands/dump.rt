//! The values of `dump`.

/// The values of `dump`.
#[derive(Drop)]
pub struct Dump {
    /// The path of the table file.
    pub table: String,
    /// The leaves that are printed, at least one.
    pub fields: Vec<String>,
}
