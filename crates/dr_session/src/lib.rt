//! A session, one line after another: lines that keep a record, publish the records kept, or ask a query of all that
//! are published; what each prints, or why it is refused.
#![tactic(auto)]

mod fault;
mod kept;
mod session;
mod sign;
mod talking;
mod texts;

pub use fault::SessionProblem;
pub use talking::{TalkFault, talk};
