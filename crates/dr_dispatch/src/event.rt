use dr_outside::Cause;

/// A tablet to be read on a leaf.
#[derive(Clone, Copy, Debug, PartialEq, Eq)]
pub struct Hand {
    pub tablet: u32,
    pub leaf: u32,
}

/// What is recorded of a hand.
#[derive(Clone, Copy, Debug, PartialEq, Eq)]
pub enum Event {
    /// It was handed out.
    Give(Hand),
    /// A piece came for it.
    Answer(Hand),
    /// Its leaf gave no piece.
    Fault(Hand, Cause),
}
