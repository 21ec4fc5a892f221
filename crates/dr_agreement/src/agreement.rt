//! Whether records have columns of several leaves.

ghost use Rattle.std.specs.Prelude.{◌≡◌, ℕ, List, length, map, true, false, IfOk};
ghost use Rattle.std.specs.List.{list_all};
ghost use Rattle.dr_meaning.specs.Schema.{Fields};
ghost use Rattle.dr_meaning.specs.Path.{Step as MeantStep, is_leaf_path};
ghost use Rattle.dr_meaning.specs.Record.{Node};
ghost use Rattle.dr_moves.specs.Selection.{all_differ};
ghost use Rattle.dr_nested.specs.PathView.{paths_view};
ghost use Rattle.dr_levels.specs.Views.{triplets_view};
ghost use Rattle.dr_beside.specs.Chunks.{HasColumns, NoneHas};
ghost use Rattle.dr_beside.specs.Neighbours.{EachAlone};
ghost use Rattle.dr_agreement.specs.Agreements.{IsOfLeaves};

use crate::outlines::{Neighbours, Outlines, neighbours_of};
use dr_levels::Triplets;
use dr_memory::NoMemory;
use dr_nested::Path;
use std::alloc::Global;

/// The neighbours among some leaves in reading order, with room for what is compared.
#[derive(Drop)]
pub struct Agreement {
    neighbours: Vec<Neighbours>,
    outlines: Outlines,
}

impl Agreement {
    /// Of some leaves.
    ///
    /// Errors: want of memory alone.
    pub fn start(alloc: Global, leaves: &[Path]) -> Result<Agreement, NoMemory>
        ensures { IfOk result (IsOfLeaves (paths_view leaves.now)) }
    {
        let neighbours = neighbours_of(alloc, leaves)?;
        Ok(Agreement {
            neighbours,
            outlines: Outlines::new(alloc),
        })
    }

    /// Whether records have all these columns, each of which so many records have alone.
    ///
    /// Errors: want of memory alone.
    pub fn have_records(&mut self, columns: &[Triplets<'_>]) -> Result<bool, NoMemory>
        requires { (F : List (List MeantStep)) × IsOfLeaves F self.old × (length F ≡ length columns.now) }
        ensures some { result ≡ Ok true → (fs : Fields) (F : List (List MeantStep)) (rows : ℕ) → IsOfLeaves F self.old
            → list_all (is_leaf_path fs) F ≡ true → all_differ F ≡ true → length F ≡ length columns.now
            → EachAlone fs F (map triplets_view columns.now) rows
            → (R : List Node) × HasColumns fs F (map triplets_view columns.now) rows R }
        ensures none { result ≡ Ok false → (fs : Fields) (F : List (List MeantStep)) (rows : ℕ) → IsOfLeaves F self.old
            → list_all (is_leaf_path fs) F ≡ true → all_differ F ≡ true
            → NoneHas fs F (map triplets_view columns.now) rows }
        ensures stays { (F : List (List MeantStep)) → IsOfLeaves F self.old → IsOfLeaves F self.new }
    {
        self.outlines.agree(&self.neighbours, columns)
    }
}
