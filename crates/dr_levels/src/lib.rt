//! Columns of values with their levels, and what the levels of paths have in common (Dremel 2010, section 4.1).
#![tactic(auto)]

mod apart;
mod chains;
mod column;
mod joining;
mod kept;
mod levels;
mod moves;
mod order;
mod text_place;
mod texts;
mod triplet;
mod triplets;
mod values;
mod values_ref;

pub use apart::{PIECE, part, put_both};
pub use chains::chain;
pub use column::Column;
pub use kept::{Branch, Kept};
pub use levels::{common, max_d, max_r};
pub use moves::Move;
pub use order::{reading_order, schema_order};
pub use text_place::TextPlace;
pub use triplet::{Levels, Triplet, ValueRef};
pub use triplets::Triplets;
pub use values_ref::ValuesRef;
