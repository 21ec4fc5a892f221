//! The items of a course, laid out in one array: what is gone through in a record, and in each instance of a repeated
//! field.

use dr_levels::Levels;
use dr_nested::Kind;

/// An optional group on the way to a leaf: it is there where the next definition level of a leaf below it is greater.
#[derive(Clone, Copy, PartialEq, Eq)]
pub struct Gate {
    pub leaf: u32,
    pub definition: u8,
}

/// A leaf of a level: its definition level where it is absent, and where it is there. Where it stands behind gates,
/// these were looked at when the level began.
#[derive(Clone, Copy, PartialEq, Eq)]
pub struct Give {
    pub leaf: u32,
    pub kind: Kind,
    pub low: u8,
    pub full: u8,
    pub gated: bool,
}

/// A next repeated field: its number, one of the leaves below it, the definition level where it is absent, and whether
/// it stands behind gates. So many NULLs come behind it, for where it is absent; the items of an instance begin at
/// `body`.
#[derive(Clone, Copy, PartialEq, Eq)]
pub struct Visit {
    pub number: u32,
    pub leaf: u32,
    pub low: u8,
    pub gated: bool,
    pub nulls: usize,
    pub body: usize,
}

/// A repeated field at the end of an instance: its number, the repetition level with which a later instance begins, one
/// of the leaves below it, and where the items of an instance begin.
#[derive(Clone, Copy, PartialEq, Eq)]
pub struct Lap {
    pub number: u32,
    pub level: u8,
    pub leaf: u32,
    pub body: usize,
}

/// One item of a course.
#[derive(Drop)]
pub enum Item {
    /// Where an instance begins: the gates of its items, those of the last item first.
    Look(Vec<Vec<Gate>>),
    /// A leaf.
    Give(Give),
    /// A repeated field.
    Visit(Visit),
    /// A leaf below the repeated field before it, where that is absent.
    Null(u32),
    /// The end of an instance; without a field, of a record.
    End(Option<Lap>),
}

impl Give {
    ghost use Rattle.std.specs.Prelude.{◌≡◌, ◌==◌, Option, Some, None, if◌then◌else◌, option_map};
    ghost use Rattle.dr_nested.specs.Views.{kind_view};
    ghost use Rattle.dr_walk.specs.Seen.{may_come, due_levels};

    /// Whether it may have a definition level, where this was seen of its gates.
    #[inline(always)]
    fn may_have(&self, seen: Option<u8>, definition: u8) -> bool
        ensures { result ≡ may_come self.now.low self.now.full seen definition }
    {
        match seen {
            Some(shut) => definition == shut,
            None => definition == self.low || definition == self.full,
        }
    }

    /// Its next levels, where they are due in an instance that began with a repetition level.
    #[inline(always)]
    pub fn due(&self, seen: Option<u8>, begun: u8, next: Option<Levels>) -> Option<Levels>
        ensures { result ≡ due_levels self.now.low self.now.full seen begun next }
    {
        match next {
            Some(levels) => {
                if levels.repetition == begun && self.may_have(seen, levels.definition) {
                    Some(levels)
                } else {
                    None
                }
            }
            None => None,
        }
    }

    /// The kind of the value that it has with these levels.
    #[inline(always)]
    pub fn kind_at(&self, levels: Levels) -> Option<Kind>
        ensures { option_map kind_view result ≡ (if levels.definition == self.now.full then Some (kind_view
            self.now.kind) else None) }
    {
        if levels.definition == self.full {
            Some(self.kind)
        } else {
            None
        }
    }
}

impl Visit {
    ghost use Rattle.std.specs.Prelude.{◌≡◌};
    ghost use Rattle.dr_walk.specs.Seen.{absent_level as meant_absent};

    /// The definition level of the NULLs of its leaves, where it is absent; none where it is there. This was seen of
    /// its gates, and this is the next definition level of its leaf.
    #[inline(always)]
    pub fn absent_level(&self, seen: Option<u8>, definition: u8) -> Option<u8>
        ensures { result ≡ meant_absent self.now.low seen definition }
    {
        match seen {
            Some(shut) => Some(shut),
            None => {
                if self.low < definition {
                    None
                } else {
                    Some(self.low)
                }
            }
        }
    }
}
