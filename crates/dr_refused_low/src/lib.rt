//! Public calls of the crates from bytes to tables, each once more under the promises that it makes there.
//! That a call's own promises give these is proved here; so a wrong body that these refuse is refused by the call's own
//! crate, too. The wrong bodies stand in must-fail/, one line each.
#![tactic(auto)]

pub mod assembly;
pub mod bytes;
pub mod chunk;
pub mod compact;
pub mod desks;
pub mod file;
pub mod files;
pub mod hybrid;
pub mod json;
pub mod levels;
pub mod lines;
pub mod made;
pub mod meta;
pub mod nested;
pub mod open;
pub mod outside;
pub mod page;
pub mod plain;
pub mod print;
pub mod pruning;
pub mod table;
pub mod written;
