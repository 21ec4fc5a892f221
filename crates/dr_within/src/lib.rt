//! What the moves of a walk make of records, with no record: the groups or the objects of a plan. Rows fire at leaves,
//! and objects are made where instances are left. A condition keeps or drops branches, and what was made in a dropped
//! one is cut off again.
#![tactic(auto)]

mod built;
mod copying;
mod failed;
mod firing;
mod frames;
mod groups;
mod item_firing;
mod joining;
mod keys;
mod last_read;
mod late;
mod levels;
mod object_frame;
mod object_frames;
mod object_scan;
mod own_cells;
mod plan_scan;
mod putting;
mod row;
mod slots;
mod taking;
mod within_values;

pub use last_read::LastRead;
pub use object_scan::ObjectScan;
pub use plan_scan::PlanScan;
pub use row::Row;
