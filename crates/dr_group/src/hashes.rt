//! Hashes of key tuples.

ghost use Rattle.std.specs.Prelude.{◌≡◌, map, fold};
ghost use Rattle.std.specs.Hash.FoldHasher as folding;
ghost use Rattle.dr_group.specs.Hashes.{cell_writes, tuple_hash};
ghost use Rattle.dr_group.specs.Views.{lent_cell, cell_view};

use dr_levels::ValueRef;
use dr_nested::Value;
use std::hash::{FoldHasher, Hasher};

/// The hash of a lent key tuple.
#[inline(always)]
pub fn lent_hash(key: &[Option<ValueRef<'_>>]) -> u64
    ensures { result ≡ tuple_hash (map lent_cell key.now) }
{
    let mut hasher = FoldHasher::default();
    'cells: for cell in key {
        write_cell(&mut hasher, *cell);
    }
    hasher.finish()
}

/// The hash of a held key tuple, which is that of an equal lent one.
pub fn held_hash(key: &[Option<Value>]) -> u64
    ensures { result ≡ tuple_hash (map cell_view key.now) }
{
    let mut hasher = FoldHasher::default();
    'cells: for cell in key {
        write_held(&mut hasher, cell);
    }
    hasher.finish()
}

/// Hashes a lent cell.
#[inline(always)]
fn write_cell(hasher: &mut FoldHasher, cell: Option<ValueRef<'_>>)
    ensures { hasher.new ≡ fold folding.write hasher.old (cell_writes (lent_cell cell.entry)) }
{
    match cell {
        None => hasher.write_u8(2),
        Some(ValueRef::Bool(truth)) => hasher.write_u8(u8::from(truth)),
        Some(ValueRef::Int(number)) => hasher.write_i64(number),
        Some(ValueRef::Text(text)) => hasher.write(text.as_bytes()),
    }
}

/// Hashes a held cell.
fn write_held(hasher: &mut FoldHasher, cell: &Option<Value>)
    ensures { hasher.new ≡ fold folding.write hasher.old (cell_writes (cell_view cell.now)) }
{
    match cell {
        None => write_cell(hasher, None),
        Some(value) => write_cell(hasher, Some(ValueRef::of(value))),
    }
}
