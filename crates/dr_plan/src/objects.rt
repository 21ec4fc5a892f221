//! The objects of a record query's result, nested as the schema nests their levels.

use dr_nested::Step;

/// An object of a result: the items in it, by their numbers among the plan's, in SELECT order, and then its lists.
#[cycle(object)]
#[derive(Drop)]
pub struct ObjectPlan {
    pub items: Vec<u32>,
    pub lists: Vec<ListPlan>,
}

/// A list in an object: its name, the path of the repeated field of whose instances it has an object each, and that
/// object.
#[cycle(object)]
#[derive(Drop)]
pub struct ListPlan {
    pub name: String,
    pub level: Vec<Step>,
    pub object: ObjectPlan,
}
