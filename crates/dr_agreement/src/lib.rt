//! Whether records have columns: a leaf's triplets alone, and the columns of several leaves together; and where records
//! end in a column.
#![tactic(auto)]

mod agreement;
mod alone;
mod append;
mod at_hand;
mod column_of_leaf;
mod cuts;
mod fronts;
mod leaves_at_hand;
mod outlines;
mod shallow;

pub use agreement::Agreement;
pub use alone::{Alone, each_alone, tests_of};
pub use at_hand::{AtHand, Kept};
pub use column_of_leaf::LeafTest;
pub use cuts::{count_records, length_of};
pub use fronts::{Front, front_of};
pub use leaves_at_hand::{all_passed, fronts_of, least_whole, lengths_of, pass_each, wanting};
