//! Printed texts: records, columns, automata, and the result of a query.
#![tactic(auto)]

mod cell_text;
mod object_text;
mod parts;
mod printing;
mod quoted_shape;
mod quoting;
mod record_lines;
mod skipping;
mod transitions;
mod triplet_lines;

pub use parts::{push_comma, push_name};
pub use printing::result_text;
pub use record_lines::{push_record_text, record_text};
pub use transitions::automaton_text;
pub use triplet_lines::{column_text, push_lent_value, triplet_text};
