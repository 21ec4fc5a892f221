//! Results of queries, held flat: their cells one after another, and the shape by which these are read as objects.
#![tactic(auto)]

mod cell;
mod cells;
mod clearing;
pub mod laws;
mod moving;
mod planning;
mod rows;
mod shape;

pub use cell::CellRef;
pub use cells::Cells;
pub use planning::shape_of;
pub use rows::RowsOut;
pub use shape::{ListShape, Shape};
