// What has grown of the pieces of some tablets.
ghost use Rattle.std.specs.Prelude.{◌≡◌, [], false, IfOk, replicate};
ghost use Rattle.std.specs.List.{range_with_len};
ghost use Rattle.dr_partials.specs.Trees as trees;
ghost use Rattle.dr_table.specs.Views.{table_view};
ghost use Rattle.dr_tree.specs.Views.{tree_view};
ghost use Rattle.dr_serve.specs.Closing.{HasAnswered};
ghost use Rattle.dr_serve.specs.GrowsOn.{IsOfPieces};

use crate::table_job::TableJob;
use dr_memory::NoMemory;
use dr_plan::Plan;
use dr_table::Table;
use dr_tree::{Growing, Tree};
use std::alloc::Global;

/// What a tree has grown of pieces, and whether each tablet has one.
#[derive(Drop)]
pub(crate) struct Answered {
    pub(crate) grown: Growing,
    pub(crate) has_piece: Vec<bool>,
}

// No tablet has a piece.
fn no_pieces(alloc: Global, tablets: u32) -> Result<Vec<bool>, NoMemory>
    ensures { IfOk result (λ v. v.items ≡ replicate tablets false) }
{
    let mut has_piece = Vec::new(alloc);
    'tablets: for _ in 0..tablets {
        has_piece.push(false)?;
    }
    Ok(has_piece)
}

// Nothing has grown.
pub(crate) fn none_answered<S: TableJob>(
    alloc: Global,
    plan: &Plan,
    table: &Table,
    tree: &Tree,
) -> Result<Answered, NoMemory>
    requires { trees.tablets_of (tree_view tree.now) ≡ range_with_len 0 (table.now).tablets }
    ensures answered { IfOk result (λ a. HasAnswered (table_view table.now) plan.now (tree_view tree.now) S.is_true
        a.grown a.has_piece.items) }
    ensures none { IfOk result (λ a. IsOfPieces [] a.has_piece.items) }
{
    let grown = Growing::new(alloc, tree, plan)?;
    let has_piece = no_pieces(alloc, table.tablets)?;
    Ok(Answered { grown, has_piece })
}
