//! Tables: their schema, the directories of their leaves, where the copies of their tablets lie, and which tablets are
//! left.
#![tactic(auto)]

mod fault;
mod left;
mod limits;
mod line;
mod parsing;
mod placing;
mod report;
mod steps;
mod table;
mod writing;

pub use dr_memory::NoMemory;
pub use fault::{TableFault, TableProblem};
pub use left::{LeftTablet, Tried};
pub use limits::{LONGEST_TABLE, MOST_LEAF_LINES, MOST_TABLETS, table_limits_are_as_defined};
pub use parsing::parse_table;
pub use placing::{path_of, placement, placement_among, tablet_path};
pub use report::left_text;
pub use steps::Steps;
pub use table::Table;
pub use writing::{table_text, table_text_of};
