//! What an aggregate gathers.

use dr_plan::Fold;

/// What an aggregate of a query gathers: rows, whatever is in them, or values.
#[derive(Clone, Copy, PartialEq, Eq)]
pub enum Gathering {
    Rows,
    Values(Fold),
}
