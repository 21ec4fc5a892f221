//! The words of a command line, read by clap: which command they ask for.
#![tactic(auto)]

mod arguments;
mod commands;
mod read;
mod serving_words;
mod words_fault;

pub use commands::USAGE;
pub use read::{read_words, taken_words_ask};
pub use words_fault::WordsFault;
