//! The real objects of the outside: files on disk as links and as a keeper, and readers and writers of std, such as the
//! standard streams, as sources and sinks. They meet the contracts of `dr_outside`, and tell nothing of their contents.
#![tactic(auto)]

mod files;
mod placing;
mod streams;
mod whole;

pub use files::{DirKeeper, DirLink};
pub use placing::Claim;
pub use streams::{Incoming, Outgoing};
