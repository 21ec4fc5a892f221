//! The plan of a query's bound parts: the rules above its paths and operators, the levels of a schema, the objects of a
//! result with their names, and the paths whose values a query uses.
#![tactic(auto)]

mod groups;
mod levels;
mod listed;
mod names;
mod objects;
mod planning;
mod records;
mod rules;
mod value_paths;

pub use levels::levels_of;
pub use listed::Listed;
pub use names::is_list_between;
pub use objects::object_plan;
pub use planning::plan_of;
pub use rules::note_rules;
pub use value_paths::used_paths;
