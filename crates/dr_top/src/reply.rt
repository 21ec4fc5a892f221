//! What a command replies before anything is written.

use crate::output::Output;
use dr_nested::Schema;

/// What a command replies.
#[derive(Drop)]
pub enum Reply {
    /// What it prints, which is held whole.
    Whole(Output),
    /// It talks: a session over the input, of this schema, is to begin.
    Talk(Schema),
}
