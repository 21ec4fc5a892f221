//! The automaton: the order of its leaves, and its table.

ghost use Rattle.std.specs.Prelude.{◌≡◌, ◌<◌, ℕ, Some, length};
ghost use Rattle.dr_fsm.specs.Tables.{table_at};

use crate::state::State;

mod building;

/// The order in which an automaton has its leaves: that of the schema, depth first, or the reading order, level by
/// level.
#[derive(Clone, Copy, PartialEq, Eq)]
pub enum Order {
    BySchema,
    Reading,
}

/// An automaton over some leaves in an order: where each level leads from each leaf. Its leaves are known by their
/// places in that order.
#[derive(Drop)]
pub struct Automaton {
    order: Vec<usize>,
    rows: Vec<Vec<State>>,
    ghost within: { (i l j : ℕ) → table_at rows.items i l ≡ Some j → j < length order.items },
}
