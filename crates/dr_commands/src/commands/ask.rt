//! The values of `ask`.

ghost use Rattle.std.specs.Prelude.{◌<◌, ◌≤◌};

use crate::serving::Serving;

/// The values of `ask`.
#[derive(Drop)]
pub struct Ask {
    /// The path of the schema.
    pub schema: String,
    /// How many records a tablet gets, from 1 to 1,000,000.
    pub rows: u32,
    /// How the query is served.
    pub serving: Serving,
    /// The text of the query.
    pub query: String,
    pub ghost has_rows: { 0 < rows },
    pub ghost few_rows: { rows ≤ 1000000 },
}
