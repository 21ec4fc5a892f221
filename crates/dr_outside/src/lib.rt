//! What a query engine meets outside itself: sources that it reads, sinks that it writes, links to
//! files, keepers of files and gates for workers. Each is a trait whose contract says what a call
//! does to the contents, and counts the faults. The forms in memory meet it, and can be made to fail.
#![tactic(auto)]

mod cause;
mod failures;
mod fault;
mod gate;
mod keeper;
mod link;
mod mem_link;
mod mem_sink;
mod mem_source;
mod shelf;
mod sink;
mod source;

pub use cause::Cause;
pub use fault::{Failed, Fault};
pub use gate::{Gate, OpenGate};
pub use keeper::Keeper;
pub use link::Link;
pub use mem_link::{Asked, MemLink};
pub use mem_sink::MemSink;
pub use mem_source::MemSource;
pub use shelf::{Put, Shelf};
pub use sink::{Sink, write_all};
pub use source::Source;
