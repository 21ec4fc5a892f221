//! The state of reading a schema text.

ghost use Rattle.std.specs.Prelude.{◌≡◌, true};
ghost use Rattle.dr_nested.specs.Room.{has_room};

use crate::fault::SchemaProblem;
use crate::shape::{Field, Kind, Rep};

/// Why reading stops at a token.
#[derive(Clone, Copy)]
pub enum Stop {
    NoMemory,
    Problem(SchemaProblem),
}

/// What may stand next. The name that a leaf's `;` or a group's `{` follows is kept in `Reading::name`.
#[derive(Clone, Copy)]
pub enum Expected {
    MessageWord,
    MessageName,
    MessageBrace,
    FirstField,
    NextField,
    AfterGroup,
    KindOrGroup(Rep),
    LeafName(Rep, Kind),
    LeafEnd(Rep, Kind),
    GroupName(Rep),
    GroupBrace(Rep),
    TextEnd,
}

/// A group that is open: the fields before it in the group that holds it, its name and its repetition.
#[derive(Drop)]
pub struct OpenGroup {
    pub before: Vec<Field>,
    pub name: String,
    pub rep: Rep,
}

/// What has been read: the message's name, the fields so far of the innermost group, the open groups (the innermost
/// last), and the number of leaves.
#[derive(Drop)]
pub struct Reading {
    pub expected: Expected,
    pub name: String,
    pub message: String,
    pub fields: Vec<Field>,
    pub groups: Vec<OpenGroup>,
    pub leaves: usize,
    ghost room: { has_room expected leaves ≡ true },
}
