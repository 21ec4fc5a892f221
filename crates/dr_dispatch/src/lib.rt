//! The definitions of dispatch: which tablet is handed out next and on which leaf, and what is recorded of it.
//! specs/Lib.antt is their table of contents; the functions here have empty bodies, and their contracts are laws.
#![tactic(auto)]

pub mod choice_laws;
pub mod draw_laws;
mod event;
pub mod history_laws;
pub mod seat_laws;
mod seen;

pub use event::{Event, Hand};
pub use seen::{PassShown, SeatView};
