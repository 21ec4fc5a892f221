//! The limits of the commands.

ghost use Rattle.std.specs.Prelude.{◌≡◌};
ghost use Rattle.dr_meaning.specs.Stripe.{most_striped};
ghost use Rattle.dr_formats.specs.Loading.{most_tablet_rows};
ghost use Rattle.dr_formats.specs.TableFile.{most_leaf_lines};
ghost use Rattle.dr_commands.specs.Numbers.{default_rows, latest_pages, least_fan, most_fan, default_fan, most_workers, default_workers, most_lag, default_lag, most_share, default_share, most_seed, most_made};

/// The greatest number of lines of `stripe`: 4,096 times 1,000,000.
pub const MOST_STRIPED: u64 = 4_096_000_000;

/// The greatest number of records to a tablet.
pub const MOST_ROWS: u32 = 1_000_000;

/// The number of records to a tablet where the words don't say it.
pub const DEFAULT_ROWS: u32 = 100_000;

/// The greatest number of copies of a tablet.
pub const MOST_COPIES: u32 = 64;

/// The latest version of data pages that are written.
pub const LATEST_PAGES: u32 = 2;

/// The greatest number of leaf directories.
pub const MOST_DIRECTORIES: usize = 64;

/// The least number of children that a server may have at most.
pub const LEAST_FAN: u32 = 2;

/// The greatest.
pub const MOST_FAN: u32 = 64;

/// The number of children that a server has at most where the words don't say it.
pub const DEFAULT_FAN: u32 = 8;

/// The greatest number of workers.
pub const MOST_WORKERS: u32 = 16;

/// The number of workers where the words don't say it.
pub const DEFAULT_WORKERS: u32 = 4;

/// The greatest number of events after which a tablet is handed out once more.
pub const MOST_LAG: u32 = 1_000_000;

/// That number where the words don't say it.
pub const DEFAULT_LAG: u32 = 64;

/// The greatest share of all tablets, in hundredths, that may be asked for.
pub const MOST_SHARE: u32 = 100;

/// That share where the words don't say it.
pub const DEFAULT_SHARE: u32 = 100;

/// The greatest seed of made records.
pub const MOST_SEED: u32 = 1_000_000_000;

/// The greatest number of made records.
pub const MOST_MADE: u32 = 10_000_000;

/// A law: these are the limits of the definitions.
pub fn command_limits_are_as_defined()
    ensures striped { MOST_STRIPED ≡ most_striped }
    ensures rows { MOST_ROWS ≡ most_tablet_rows }
    ensures default { DEFAULT_ROWS ≡ default_rows }
    ensures copies { MOST_COPIES ≡ most_leaf_lines }
    ensures pages { LATEST_PAGES ≡ latest_pages }
    ensures directories { MOST_DIRECTORIES ≡ most_leaf_lines }
    ensures least_fan { LEAST_FAN ≡ least_fan }
    ensures fan { MOST_FAN ≡ most_fan }
    ensures default_fan { DEFAULT_FAN ≡ default_fan }
    ensures workers { MOST_WORKERS ≡ most_workers }
    ensures default_workers { DEFAULT_WORKERS ≡ default_workers }
    ensures lag { MOST_LAG ≡ most_lag }
    ensures default_lag { DEFAULT_LAG ≡ default_lag }
    ensures share { MOST_SHARE ≡ most_share }
    ensures default_share { DEFAULT_SHARE ≡ default_share }
    ensures seed { MOST_SEED ≡ most_seed }
    ensures made { MOST_MADE ≡ most_made }
{}
