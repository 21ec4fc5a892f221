//! What a plan means on records, computed record by record: the reference of all that answers queries.
#![tactic(auto)]

mod grouping;
mod groups;
mod items;
mod keeping;
mod keys;
mod laws;
mod lines;
mod meaning;
mod objects;
mod taking;
mod values;

pub use keeping::keep;
pub use keys::key_of;
pub use laws::{groups_take_records, lines_are_result, record_is_put_row_by_row};
pub use lines::mean_objects;
pub use meaning::{mean, partial_of};
