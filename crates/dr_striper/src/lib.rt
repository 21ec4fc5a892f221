//! Striping records into columns (Dremel 2010, section 4.1).
#![tactic(auto)]

mod branch;
mod copying;
mod cutting;
mod ending;
mod groups;
mod held;
mod inside;
mod leaf_laws;
mod leaves;
mod lending;
mod making;
mod nodes;
mod passing;
mod planting;
mod records;
mod striper;

pub use held::Held;
pub use leaf_laws::{
    forms_fit_leaves, found_leaves_have_kinds, records_fit_leaves, schema_leaves_have_kinds,
};
pub use making::Striper;
