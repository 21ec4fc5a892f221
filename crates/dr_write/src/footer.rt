//! Footers.

ghost use Rattle.std.specs.Prelude.{◌≡◌, ◌++◌, OnOk};
ghost use Rattle.dr_nested.specs.SchemaView.{schema_view};
ghost use Rattle.dr_meta.specs.Views.{groups_view};
ghost use Rattle.dr_write.specs.Files.{footer_of, file_end};

use crate::elements::schema_items;
use dr_compact::write_struct;
use dr_memory::NoMemory;
use dr_meta::{Count, FileMeta, GroupMeta, tree_of_file};
use dr_nested::Schema;
use std::alloc::Global;

/// The bytes with which files begin and end.
pub(crate) const MAGIC: [u8; 4] = *b"PAR1";

/// The program's name, as files tell it.
const CREATED_BY: &[u8] = b"dremel-nested 1";

/// The version of the format.
const VERSION: i64 = 1;

/// The bytes of the length of a footer.
const LENGTH_BYTES: usize = 4;

/// Appends the footer of a file of so many rows in these row groups, its length in four bytes, and the magic.
///
/// Errors: want of memory alone; some bytes may have joined then.
pub(crate) fn append_footer<'t, 'a>(
    alloc: Global,
    schema: &'a Schema,
    rows: Count,
    groups: Vec<GroupMeta<'t, 'a>>,
    out: &mut Vec<u8>,
) -> Result<(), NoMemory>
    ensures { OnOk result ((out.new).items ≡ (out.old).items
        ++ file_end (footer_of (schema_view schema.now) rows.number (groups_view groups.entry))) }
{
    let meta = FileMeta {
        version: Some(VERSION),
        schema: schema_items(alloc, schema)?,
        rows,
        groups,
        created_by: Some(CREATED_BY),
    };
    let start = out.len();
    write_struct(&tree_of_file(alloc, &meta)?, out)?;
    let length = (out.len() - start) as u64;
    out.extend_from_slice(&length.to_le_bytes()[..LENGTH_BYTES])?;
    out.extend_from_slice(&MAGIC)?;
    Ok(())
}
