//! The metadata of files.

ghost use Rattle.dr_compact.specs.Views.{tree_view};
ghost use Rattle.dr_meta.specs.Views.{file_view};
ghost use Rattle.dr_meta.specs.Faults.{Gives};
ghost use Rattle.dr_formats.specs.Metadata as metadata;

use dr_compact::Tree;
use dr_meta::{FileMeta, MetaFault, view_file};
use std::alloc::Global;

/// As `view_file`.
pub fn meta_of_file<'t, 'a>(
    alloc: Global,
    tree: &'t Tree<'a>,
) -> Result<FileMeta<'t, 'a>, MetaFault>
    ensures { Gives file_view (metadata.view_file (tree_view tree.now)) result }
{
    view_file(alloc, tree)
}
