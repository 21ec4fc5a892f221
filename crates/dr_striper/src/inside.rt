//! What is inside an instance of a node.

use dr_nested::{Node, Value};

/// A leaf's value, or a group's node.
#[derive(Clone, Copy)]
pub enum Inside<'a> {
    Atom(&'a Value),
    Group(&'a Node),
}
