//! Serving trees: leaf servers with a tablet each, and what a tree gathers of the partials of its tablets, given
//! together or as they come.
#![tactic(auto)]

mod fan;
mod gathering;
mod growing;
mod halved;
mod joined;
pub mod laws;
mod piled;
mod subtree;
mod tree;
mod waiting;

pub use fan::of_fan;
pub use gathering::gather;
pub use growing::Growing;
pub use tree::Tree;
