//! The values of `session`.

/// The values of `session`.
#[derive(Drop)]
pub struct Session {
    /// The path of the schema.
    pub schema: String,
}
