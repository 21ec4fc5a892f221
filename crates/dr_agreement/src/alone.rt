//! Whether triplets of several leaves are their columns, each alone.

ghost use Rattle.std.specs.Prelude.{◌≡◌, length, map, List, IfOk};
ghost use Rattle.dr_meaning.specs.Path.{Leaf};
ghost use Rattle.dr_nested.specs.PathView.{path_view};
ghost use Rattle.dr_levels.specs.Views.{triplets_view};
ghost use Rattle.dr_agreement.specs.Alone.{AreColumnsAlone, AreTestsOf, OneIsNoColumn};

use crate::column_of_leaf::LeafTest;
use dr_levels::Triplets;
use dr_memory::NoMemory;
use dr_nested::Path;
use std::alloc::Global;

/// What triplets of several leaves are, each alone.
#[derive(Clone, Copy, PartialEq, Eq)]
pub enum Alone {
    /// Each is the column of its leaf of so many records.
    Columns,
    /// One is the column of no so many records.
    NoColumn,
    /// One was made for another leaf.
    Strange,
}

/// The tests of leaves.
///
/// Errors: want of memory alone.
pub fn tests_of(alloc: Global, leaves: &[Path]) -> Result<Vec<LeafTest>, NoMemory>
    ensures { IfOk result (λ v. AreTestsOf (map path_view leaves.now) v.items) }
{
    let mut tests = Vec::with_capacity(alloc, leaves.len())?;
    'leaves: for leaf in leaves {
        tests.push(LeafTest::of(alloc, leaf)?)?;
    }
    Ok(tests)
}

/// What triplets of leaves are by their tests, each alone.
pub fn each_alone(tests: &[LeafTest], columns: &[Triplets<'_>], records: usize) -> Alone
    requires { length columns.now ≡ length tests.now }
    ensures columns { result ≡ Alone.Columns → (L : List Leaf) → AreTestsOf L tests.now
        → AreColumnsAlone L (map triplets_view columns.now) records }
    ensures none { result ≡ Alone.NoColumn → (L : List Leaf) → AreTestsOf L tests.now
        → OneIsNoColumn L (map triplets_view columns.now) records }
{
    'tests: for at in 0..tests.len() {
        if !tests[at].is_made_for(columns[at]) {
            return Alone::Strange;
        }
        if !tests[at].is_column(columns[at], records) {
            return Alone::NoColumn;
        }
    }
    Alone::Columns
}
