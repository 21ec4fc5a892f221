//! Where the copies of tablets lie.

ghost use Rattle.std.specs.Prelude.{◌≡◌, ◌<◌, length, string_bytes, IfOk};
ghost use Rattle.dr_meaning.specs.Lists.{nth_text};
ghost use Rattle.dr_formats.specs.Tablets as meant;
ghost use Rattle.dr_table.specs.Views.{table_view};

use crate::table::Table;
use dr_memory::NoMemory;
use std::alloc::Global;

/// The leaf of a copy of a tablet; all are counted from 0.
pub fn placement(table: &Table, tablet: u32, copy: u32) -> u32
    ensures leaf { result ≡ meant.placement (length (table_view table.now).leaves) tablet copy }
    ensures there { result < length (table_view table.now).leaves }
{
    placement_among(table.leaves.len() as u32, tablet, copy)
}

/// The leaf of a copy of a tablet, where there are so many leaves; all are counted from 0.
pub fn placement_among(leaves: u32, tablet: u32, copy: u32) -> u32
    requires { 0 < leaves }
    ensures leaf { result ≡ meant.placement leaves tablet copy }
    ensures there { result < leaves }
{
    ((u64::from(tablet) + u64::from(copy)) % u64::from(leaves)) as u32
}

/// The path of a tablet on a leaf; both are counted from 0.
///
/// Errors: want of memory alone.
pub fn path_of(alloc: Global, table: &Table, leaf: u32, tablet: u32) -> Result<String, NoMemory>
    requires { leaf < length (table_view table.now).leaves }
    ensures { IfOk result (λ s. string_bytes s
        ≡ meant.tablet_path (nth_text (table_view table.now).leaves leaf) tablet) }
{
    tablet_path(alloc, table.leaves[leaf as usize].as_str(), tablet)
}

/// The path of a tablet in a directory; tablets are counted from 0.
///
/// Errors: want of memory alone.
pub fn tablet_path(alloc: Global, directory: &str, tablet: u32) -> Result<String, NoMemory>
    ensures { IfOk result (λ s. string_bytes s ≡ meant.tablet_path directory.now tablet) }
{
    Ok(format!(in alloc; "{directory}/t{tablet:06}.parquet")?)
}
