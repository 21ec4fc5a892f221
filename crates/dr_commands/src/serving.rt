//! How a query is served.

ghost use Rattle.std.specs.Prelude.{◌<◌, ◌≤◌};

/// How a query is served.
#[derive(Clone, Copy)]
pub struct Serving {
    /// How many workers scan tablets, from 1 to 16.
    pub workers: u32,
    /// How many children a server of the tree has at most, from 2 to 64.
    pub fan: u32,
    /// After how many events a tablet that was handed out is handed out once more, from 1 to 1,000,000.
    pub lag: u32,
    pub ghost has_worker: { 0 < workers },
    pub ghost few_workers: { workers ≤ 16 },
    pub ghost has_fan: { 2 ≤ fan },
    pub ghost small_fan: { fan ≤ 64 },
    pub ghost has_lag: { 0 < lag },
    pub ghost small_lag: { lag ≤ 1000000 },
}
