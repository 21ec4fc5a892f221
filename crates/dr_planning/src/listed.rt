//! The lists of a schema: its repeated fields, nested as they stand in one another.

use dr_nested::Step;

/// A repeated field, of whose instances an object has a list: its name from the list above, the names on the way joined
/// by dots; its path; and the lists next below it.
#[derive(Drop)]
pub struct Listed {
    pub name: String,
    pub path: Vec<Step>,
    pub below: Vec<Listed>,
}
