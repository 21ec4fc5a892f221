//! The values of `explain`.

/// The values of `explain`.
#[derive(Drop)]
pub struct Explain {
    /// The path of the schema.
    pub schema: String,
    /// The text of the query.
    pub query: String,
}
