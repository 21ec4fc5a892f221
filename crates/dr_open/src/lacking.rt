//! Which group of a file lacks a part of a leaf's path.

ghost use Rattle.std.specs.Prelude.{◌≡◌, ◌<◌, map, length, string_bytes, None, IsSome, IfSome, IfNone};
ghost use Rattle.dr_meta.specs.Views.{item_view};
ghost use Rattle.dr_nested.specs.PathView.{step_view};
ghost use Rattle.dr_open.specs.Places.{passed};
ghost use Rattle.dr_open.specs.Sources.{lacking_among, IsLackingGroup};

use crate::place::is_on_way;
use crate::skipping::field_named;
use dr_meta::{SchemaItem, group_size};
use dr_nested::{Rep, Step};

/// A group of a file that lacks a part of a path.
#[derive(Clone, Copy)]
pub(crate) struct LackingGroup<'t, 'a> {
    /// How many parts of the path lead to it.
    pub parts: usize,
    /// How many fields it has.
    pub fields: u64,
    /// The elements of the list that begin with its fields.
    pub items: &'t [SchemaItem<'a>],
}

/// The group that lacks a part of a path, below one with so many fields: none where the part is required, where a part
/// before it is no group, has another repetition, or isn't open by its name, or where no part is lacking.
pub(crate) fn lacking_group<'t, 'a>(
    fields: u64,
    items: &'t [SchemaItem<'a>],
    names: &[String],
    steps: &[Step],
) -> Option<LackingGroup<'t, 'a>>
    requires { IsSome (passed fields (map item_view items.now)) }
    ensures none { IfNone result (lacking_among (map string_bytes names.now) (map step_view steps.now) fields
        (map item_view items.now) ≡ None) }
    ensures some { IfSome result (λ g. IsLackingGroup g.parts g.fields (map item_view g.items.now)
        (lacking_among (map string_bytes names.now) (map step_view steps.now) fields (map item_view items.now))) }
    ensures names { IfSome result (λ g. g.parts < length names.now) }
    ensures steps { IfSome result (λ g. g.parts < length steps.now) }
{
    let (name, names) = names.split_first()?;
    let (step, steps) = steps.split_first()?;
    let name = name.as_bytes();
    let Some(found) = field_named(fields, items, name) else {
        if step.rep == Rep::Required {
            return None;
        }
        return Some(LackingGroup {
            parts: 0,
            fields,
            items,
        });
    };
    if !is_on_way(found.item, name, step.rep) {
        return None;
    }
    let inner = group_size(found.item)?;
    let group = lacking_group(inner, found.behind, names, steps)?;
    Some(LackingGroup {
        parts: group.parts + 1,
        fields: group.fields,
        items: group.items,
    })
}
