//! Structs of the Thrift compact protocol.

ghost use Rattle.std.specs.Prelude.{◌≡◌, ◌≤◌, length, drop, IfOk, IfErr, ◌++◌, OnOk, OnErr};
ghost use Rattle.dr_formats.specs.Reading.{got};
ghost use Rattle.dr_compact.specs.Reads.{IsFaultOf};
ghost use Rattle.dr_compact.specs.Views.{tree_view};
ghost use Rattle.dr_formats.specs.Compact.{struct_bytes};
ghost use Rattle.dr_formats.specs.Compact as compact;

use dr_compact::{CompactFault, Tree, read_struct, write_struct};
use dr_memory::NoMemory;
use std::alloc::Global;

/// As `read_struct`.
pub fn tree_of<'a>(alloc: Global, bytes: &'a [u8]) -> Result<(Tree<'a>, usize), CompactFault>
    ensures read { IfOk result (λ r. compact.read_struct bytes.now ≡ got (tree_view r.0) (drop r.1 bytes.now)) }
    ensures within { IfOk result (λ r. r.1 ≤ length bytes.now) }
    ensures fault { IfErr result (λ e. IsFaultOf e (compact.read_struct bytes.now)) }
{
    read_struct(alloc, bytes)
}

/// As `write_struct`.
pub fn append_tree(tree: &Tree<'_>, out: &mut Vec<u8>) -> Result<(), NoMemory>
    ensures written { OnOk result ((out.new).items ≡ (out.old).items ++ struct_bytes (tree_view tree.now)) }
    ensures stays { OnErr result ((out.new).items ≡ (out.old).items) }
{
    write_struct(tree, out)
}
