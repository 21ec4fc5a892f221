//! The names in the objects of a result.

ghost use Rattle.std.specs.Prelude.{◌≡◌, map, option_copied};
ghost use Rattle.dr_meaning.specs.Binding as binding;
ghost use Rattle.dr_meaning.specs.Query.{Levels};
ghost use Rattle.dr_nested.specs.PathView.{step_view};
ghost use Rattle.dr_planning.specs.Entries as entries;
ghost use Rattle.dr_planning.specs.NamedLevels.{joined, levels_view};

use crate::listed::Listed;
use dr_nested::Step;
use dr_paths::{begins_with, same_path};

/// Whether the list that leads from the object at a level to an item of another level, if one does, has the wanted
/// name.
pub fn is_list_between(levels: &[Listed], object: &[Step], level: &[Step], wanted: &str) -> bool
    ensures named { result ≡ binding.is_named wanted.now
        (entries.named_between (levels_view levels.now) (map step_view object.now) (map step_view level.now)) }
    ensures meant { (ls : Levels) → levels_view levels.now ≡ joined ls → result
        ≡ binding.is_named wanted.now (binding.list_between ls (map step_view object.now) (map step_view level.now)) }
{
    match list_between(levels, object, level) {
        None => false,
        Some(name) => wanted == name,
    }
}

/// The name of the list that leads from the object at a level to an item of another level, if one does.
fn list_between<'a>(levels: &'a [Listed], object: &[Step], level: &[Step]) -> Option<&'a str>
    ensures { option_copied result ≡ entries.named_between (levels_view levels.now) (map step_view object.now)
        (map step_view level.now) }
{
    if same_path(object, level) {
        return None;
    }
    match object {
        [] => list_name(levels, level),
        _ => list_inside(levels, object, level),
    }
}

/// The name of the list, among those of these levels, that leads to a level.
fn list_name<'a>(levels: &'a [Listed], level: &[Step]) -> Option<&'a str>
    ensures { option_copied result ≡ entries.named_list (map step_view level.now) (levels_view levels.now) }
{
    'levels: for next in levels {
        if begins_with(&next.path, level) {
            return Some(next.name.as_str());
        }
    }
    None
}

/// The same among the lists of the object at a level that is one of these or inside one of them.
fn list_inside<'a>(levels: &'a [Listed], object: &[Step], level: &[Step]) -> Option<&'a str>
    ensures { option_copied result ≡ entries.list_inside (map step_view object.now) (map step_view level.now)
        (levels_view levels.now) }
{
    'levels: for next in levels {
        if same_path(object, &next.path) {
            return list_name(&next.below, level);
        }
        if let Some(name) = list_inside(&next.below, object, level) {
            return Some(name);
        }
    }
    None
}
