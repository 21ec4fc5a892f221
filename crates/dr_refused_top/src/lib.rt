//! Public calls of the crates from words and loads to whole commands, each once more under the promises that it makes
//! there. That a call's own promises give these is proved here; so a wrong body that these refuse is refused by the
//! call's own crate, too. The wrong bodies stand in must-fail/, one line each.
#![tactic(auto)]

pub mod answering;
pub mod asking;
pub mod dumping;
pub mod loading;
pub mod running;
pub mod scanning;
pub mod words;
