//! The values of `fsm`.

/// The values of `fsm`.
#[derive(Drop)]
pub struct Fsm {
    /// The path of the schema.
    pub schema: String,
    /// The leaves of the automaton, at least one.
    pub fields: Vec<String>,
}
