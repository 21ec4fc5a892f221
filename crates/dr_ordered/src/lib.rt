//! Results in the order of one of their values, and the first of their objects.
#![tactic(auto)]

mod copying;
mod orders;
mod results;
mod stretches;

pub use results::{Order, arranged};
