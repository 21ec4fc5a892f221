//! The board of the dispatch machine: what was handed out, answered and failed so far, and the pieces that were kept.
//! It is a value of one thread; each of its calls is one step of the machine.
#![tactic(auto)]

mod board;
mod choosing;
mod job;
mod looks;
mod piece;
mod replaying;
mod state;
mod tablet;

pub use board::{Board, Closing, Told};
pub use dr_dispatch::{Event, Hand};
pub use dr_memory::NoMemory;
pub use job::Job;
pub use looks::Looks;
pub use piece::{Naming, Piece};
pub use replaying::replay;
pub use state::State;
