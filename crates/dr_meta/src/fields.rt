//! Fields of a struct, by their ids and types.

ghost use Rattle.std.specs.Prelude.{◌≡◌, option_map};
ghost use Rattle.dr_formats.specs.Metadata.{optional_field, needed, needed_count, unless_negative, as_i32, as_i64, as_truth, as_binary, as_struct, as_structs, as_numbers, as_names};
ghost use Rattle.dr_compact.specs.Views.{tree_view};
ghost use Rattle.dr_meta.specs.Views.{lent, lent_names, lent_structs};
ghost use Rattle.dr_meta.specs.Faults.{Gives};

use crate::count::Count;
use crate::fault::MetaFault;
use dr_compact::{Item, Tree};

// ---- fields that need not be there; with another type they count as not there

pub(crate) fn optional_truth(tree: &Tree<'_>, id: u8) -> Option<bool>
    ensures { result ≡ optional_field as_truth id (tree_view tree.now) }
{
    tree.find(i16::from(id))?.as_truth()
}

pub(crate) fn optional_i32(tree: &Tree<'_>, id: u8) -> Option<i64>
    ensures { result ≡ optional_field as_i32 id (tree_view tree.now) }
{
    tree.find(i16::from(id))?.as_i32()
}

pub(crate) fn optional_i64(tree: &Tree<'_>, id: u8) -> Option<i64>
    ensures { result ≡ optional_field as_i64 id (tree_view tree.now) }
{
    tree.find(i16::from(id))?.as_i64()
}

pub(crate) fn optional_binary<'a>(tree: &Tree<'a>, id: u8) -> Option<&'a [u8]>
    ensures { option_map lent result ≡ optional_field as_binary id (tree_view tree.now) }
{
    tree.find(i16::from(id))?.as_binary()
}

pub(crate) fn optional_struct<'t, 'a>(tree: &'t Tree<'a>, id: u8) -> Option<&'t Tree<'a>>
    ensures { option_map (λ t. tree_view t.now) result ≡ optional_field as_struct id (tree_view tree.now) }
{
    tree.find(i16::from(id))?.as_struct()
}

pub(crate) fn optional_numbers<'t>(tree: &'t Tree<'_>, id: u8) -> Option<&'t [i64]>
    ensures { option_map lent result ≡ optional_field as_numbers id (tree_view tree.now) }
{
    tree.find(i16::from(id))?.as_numbers()
}

pub(crate) fn optional_names<'t, 'a>(tree: &'t Tree<'a>, id: u8) -> Option<&'t [&'a [u8]]>
    ensures { option_map lent_names result ≡ optional_field as_names id (tree_view tree.now) }
{
    tree.find(i16::from(id))?.as_names()
}

// ---- needed fields

pub(crate) fn needed_i32(tree: &Tree<'_>, id: u8) -> Result<i64, MetaFault>
    ensures { Gives (λ z. z) (needed as_i32 id (tree_view tree.now)) result }
{
    optional_i32(tree, id).ok_or(MetaFault::Missing(id))
}

pub(crate) fn needed_i64(tree: &Tree<'_>, id: u8) -> Result<i64, MetaFault>
    ensures { Gives (λ z. z) (needed as_i64 id (tree_view tree.now)) result }
{
    optional_i64(tree, id).ok_or(MetaFault::Missing(id))
}

pub(crate) fn needed_binary<'a>(tree: &Tree<'a>, id: u8) -> Result<&'a [u8], MetaFault>
    ensures { Gives lent (needed as_binary id (tree_view tree.now)) result }
{
    optional_binary(tree, id).ok_or(MetaFault::Missing(id))
}

pub(crate) fn needed_struct<'t, 'a>(tree: &'t Tree<'a>, id: u8) -> Result<&'t Tree<'a>, MetaFault>
    ensures { Gives (λ t. tree_view t.now) (needed as_struct id (tree_view tree.now)) result }
{
    optional_struct(tree, id).ok_or(MetaFault::Missing(id))
}

pub(crate) fn needed_structs<'t, 'a>(
    tree: &'t Tree<'a>,
    id: u8,
) -> Result<&'t [Tree<'a>], MetaFault>
    ensures { Gives lent_structs (needed as_structs id (tree_view tree.now)) result }
{
    let structs = match tree.find(i16::from(id)) {
        Some(item) => item.as_structs(),
        None => None,
    };
    structs.ok_or(MetaFault::Missing(id))
}

// ---- needed numbers that are not negative

fn not_negative(number: i64, id: u8) -> Result<Count, MetaFault>
    ensures { Gives (λ c. c.number) (unless_negative id number) result }
{
    Count::from_signed(number).ok_or(MetaFault::Range(id))
}

pub(crate) fn needed_count32(tree: &Tree<'_>, id: u8) -> Result<Count, MetaFault>
    ensures { Gives (λ c. c.number) (needed_count as_i32 id (tree_view tree.now)) result }
{
    not_negative(needed_i32(tree, id)?, id)
}

pub(crate) fn needed_count64(tree: &Tree<'_>, id: u8) -> Result<Count, MetaFault>
    ensures { Gives (λ c. c.number) (needed_count as_i64 id (tree_view tree.now)) result }
{
    not_negative(needed_i64(tree, id)?, id)
}
