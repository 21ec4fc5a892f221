//! Rules of bound parts.

ghost use Rattle.dr_planning.specs.NamedLevels.{levels_view};
ghost use Rattle.dr_planning.specs.Rules.{NotesRules};

use dr_planning::{Listed, note_rules};
use dr_resolve::{BoundParts, FirstFault};

/// As `note_rules`.
pub fn rules_noted(levels: &[Listed], parts: &BoundParts, first: &mut FirstFault)
    ensures { NotesRules (levels_view levels.now) parts.now first.old first.new }
{
    note_rules(levels, parts, first)
}
