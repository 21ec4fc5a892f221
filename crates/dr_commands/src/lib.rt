//! The commands: what a command line asks for, and what that means.
#![tactic(auto)]

pub mod commands;
pub mod laws;
mod limits;
mod page_version;
mod serving;

pub use commands::Command;
pub use limits::{
    DEFAULT_FAN, DEFAULT_LAG, DEFAULT_ROWS, DEFAULT_SHARE, DEFAULT_WORKERS, LATEST_PAGES,
    LEAST_FAN, MOST_COPIES, MOST_DIRECTORIES, MOST_FAN, MOST_LAG, MOST_MADE, MOST_ROWS, MOST_SEED,
    MOST_SHARE, MOST_STRIPED, MOST_WORKERS, command_limits_are_as_defined,
};
pub use page_version::PageVersion;
pub use serving::Serving;
