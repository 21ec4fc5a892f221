use dr_desk::Event;
use dr_group::Partial;
use dr_table::LeftTablet;

/// What serving a query ends with.
#[derive(Drop)]
pub enum Outcome {
    /// What the tree gathers of a piece of each tablet.
    Finished(Partial),
    /// What the tree gathers of a piece of each tablet that isn't left, where these are at least the share that was
    /// asked for; and the tablets that are left, in their order, never none. Of each the first link tried all copies.
    Most(Partial, Vec<LeftTablet>),
    /// The tablets that are left, as above, where the others are less than that share.
    Unfinished(Vec<LeftTablet>),
}

/// What serving a query ends with, and the history of the desk that handed out the tablets, as it was shut.
#[derive(Drop)]
pub struct Served {
    pub outcome: Outcome,
    pub history: Vec<Event>,
}
