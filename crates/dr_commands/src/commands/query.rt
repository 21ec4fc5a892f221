//! The values of `query`.

ghost use Rattle.std.specs.Prelude.{◌<◌, ◌≤◌};

use crate::serving::Serving;

/// The values of `query`.
#[derive(Drop)]
pub struct Query {
    /// The path of the table file.
    pub table: String,
    /// How it is served.
    pub serving: Serving,
    /// Which share of all tablets is enough, in hundredths, from 1 to 100.
    pub least: u32,
    /// The text of the query.
    pub query: String,
    pub ghost some_share: { 0 < least },
    pub ghost at_most_all: { least ≤ 100 },
}
