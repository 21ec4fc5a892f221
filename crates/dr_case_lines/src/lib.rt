//! What programs that run cases of files share, and tests: the texts of lines, why a line can't be followed, the count
//! of cases, the worked document, records that look random, and queries of them.
#![tactic(auto)]

mod broken;
mod document;
mod queries;
mod random;
mod tally;
mod words;

pub use broken::Broken;
pub use document::{DOCUMENT, RECORDS};
pub use queries::QUERIES;
pub use random::record_lines;
pub use tally::{Place, Tally};
pub use words::{numbers_of, push_bytes, push_copies, push_text, words_of};
