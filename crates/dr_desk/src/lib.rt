//! The desk: a board under one lock, and passes with which threads call it. Each call is at most one event of the
//! dispatch machine. A pass carries what its thread knows: a history that it has seen, which only grows, and its own
//! events in it.
#![tactic(auto)]

mod desk;
mod ground;
mod handing;
mod journal;
mod locked;
mod pass;
mod room;
mod rule;
mod steps;

pub use desk::Desk;
pub use dr_board::{Board, Closing, Event, Hand, Job, Naming, NoMemory, Piece, Told};
pub use ground::Ground;
pub use journal::Journal;
pub use pass::Pass;
pub use room::Room;
