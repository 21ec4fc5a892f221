//! The values of `stripe`.

/// The values of `stripe`.
#[derive(Drop)]
pub struct Stripe {
    /// The path of the schema.
    pub schema: String,
    /// The leaf whose column is printed.
    pub field: String,
}
