//! How a query is served, as its words say.

ghost use Rattle.std.specs.Prelude.{◌≡◌};

use dr_commands::Serving;
use dr_serve::ServeOptions;

/// The share of all tablets, in hundredths.
pub const ALL_TABLETS: u32 = 100;

/// How a query is served whose words say so, of which so many hundredths of the tablets are enough.
pub fn service_of(words: &Serving, least: u32) -> ServeOptions
    ensures workers { result.workers ≡ (words.now).workers }
    ensures fan { result.fan ≡ (words.now).fan }
    ensures lag { result.lag ≡ (words.now).lag }
    ensures least { result.least ≡ least }
{
    ServeOptions {
        workers: words.workers as usize,
        fan: words.fan,
        lag: u64::from(words.lag),
        least,
    }
}
