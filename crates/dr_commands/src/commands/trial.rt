//! The values of `trial`.

ghost use Rattle.std.specs.Prelude.{◌<◌, ◌≤◌};

use crate::serving::Serving;

/// The values of `trial`.
#[derive(Drop)]
pub struct Trial {
    /// The number of the first record, at most 1,000,000,000.
    pub seed: u32,
    /// How many records are made, at most 10,000,000.
    pub records: u32,
    /// How many records a tablet gets, from 1 to 1,000,000.
    pub rows: u32,
    /// How the query is served.
    pub serving: Serving,
    pub ghost small_seed: { seed ≤ 1000000000 },
    pub ghost few_records: { records ≤ 10000000 },
    pub ghost has_rows: { 0 < rows },
    pub ghost few_rows: { rows ≤ 1000000 },
}
