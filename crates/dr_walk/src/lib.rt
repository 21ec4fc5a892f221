//! The walk of records over their columns, one move at a time: no record is made.
#![tactic(auto)]

mod batches;
mod checking;
mod counting;
mod course;
mod fault;
mod heads;
mod items;
mod laying;
mod level;
mod level_move;
mod level_walk;
mod picks;
mod spot;
mod taking;
mod turn;
mod values;
mod walk;

pub use batches::{Turned, step_over};
pub use checking::check_columns;
pub use counting::count_repeated;
pub use fault::AssembleFault;
pub use level_move::LevelMove;
pub use level_walk::LevelWalk;
pub use walk::Walk;
