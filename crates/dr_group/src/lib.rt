//! Partials of a query: the lines of a record query, or the groups of an aggregate query with what each has gathered.
#![tactic(auto)]

mod accumulator;
mod entering;
mod finding;
mod finishing;
mod gathering;
mod group;
mod group_map;
mod hashes;
mod hints;
mod index;
mod integers;
mod joining;
mod key;
pub mod laws;
mod making;
mod many;
mod map_merging;
mod merging;
mod ordered_index;
mod ordering;
mod orders;
mod partial;
mod putting;
mod sameness;
mod taking;
mod turn;

pub use accumulator::Accumulator;
pub use gathering::Gathering;
pub use group::{Group, Taken};
pub use group_map::GroupMap;
pub use many::Many;
pub use partial::Partial;
