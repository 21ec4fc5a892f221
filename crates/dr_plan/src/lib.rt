//! Plans: queries whose names have become leaves of a schema, in the form in which they are run (Dremel 2010, section
//! 5).
#![tactic(auto)]

mod aggregate;
mod building;
mod condition;
mod expression;
mod joining;
pub mod laws;
mod objects;
mod plan;

pub use aggregate::{Aggregate, Fold, Within};
pub use condition::{CutCondition, conjuncts};
pub use expression::{Comparison, Expr, Number, TextOf, Truth};
pub use joining::Joining;
pub use objects::{ListPlan, ObjectPlan};
pub use plan::{GroupItem, GroupTerm, Plan, RecordItem, RecordTerm, Selection};
