//! Where the automaton is.

/// The leaf that is read, by its place in the automaton's order, or the end of the record.
#[derive(Clone, Copy, PartialEq, Eq)]
pub enum State {
    Leaf(u32),
    End,
}
