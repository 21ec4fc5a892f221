//! The values of `gen`.

ghost use Rattle.std.specs.Prelude.{◌≤◌};

/// The values of `gen`.
#[derive(Drop)]
pub struct Gen {
    /// The number of the first record, at most 1,000,000,000.
    pub seed: u32,
    /// How many records are made, at most 10,000,000.
    pub records: u32,
    pub ghost small_seed: { seed ≤ 1000000000 },
    pub ghost few_records: { records ≤ 10000000 },
}
