//! Serving trees.

ghost use Rattle.std.specs.Prelude.{◌≡◌, ◌^◌, ◌<◌, ◌++◌, OnOk, length};
ghost use Rattle.dr_partials.specs.Trees.{tablets_of, tablets_of_all};
ghost use Rattle.dr_tree.specs.Views.{tree_view, trees_view};

use dr_memory::NoMemory;

/// A serving tree: a leaf server with the tablet of a number, or an intermediate server with its children, of which the
/// first stands apart.
#[cycle(tree)]
#[derive(Drop)]
pub enum Tree {
    Leaf(u32),
    Inner(Box<Tree>, Vec<Tree>),
}

/// How many leaf servers a tree has.
#[cycle(counting)]
pub(crate) fn count_tablets(tree: &Tree) -> usize
    requires { length (tablets_of (tree_view tree.now)) < 2 ^ 64 }
    ensures { result ≡ length (tablets_of (tree_view tree.now)) }
{
    match tree {
        Tree::Leaf(_) => 1,
        Tree::Inner(first, rest) => count_tablets(first) + count_all(rest),
    }
}

/// How many leaf servers some trees have together.
#[cycle(counting)]
fn count_all(trees: &Vec<Tree>) -> usize
    requires { length (tablets_of_all (trees_view (trees.now).items)) < 2 ^ 64 }
    ensures { result ≡ length (tablets_of_all (trees_view (trees.now).items)) }
{
    let mut total = 0;
    'trees: for tree in trees {
        total += count_tablets(tree);
    }
    total
}

/// Pushes the tablets of a tree's leaf servers, in order.
#[cycle(pushing)]
pub(crate) fn push_tablets(tree: &Tree, tablets: &mut Vec<u32>) -> Result<(), NoMemory>
    ensures { OnOk result ((tablets.new).items ≡ (tablets.old).items ++ tablets_of (tree_view tree.now)) }
{
    match tree {
        Tree::Leaf(tablet) => {
            tablets.push(*tablet)?;
            Ok(())
        }
        Tree::Inner(first, rest) => {
            push_tablets(first, tablets)?;
            push_all(rest, tablets)
        }
    }
}

/// Pushes those of some trees.
#[cycle(pushing)]
fn push_all(trees: &Vec<Tree>, tablets: &mut Vec<u32>) -> Result<(), NoMemory>
    ensures { OnOk result ((tablets.new).items
        ≡ (tablets.old).items ++ tablets_of_all (trees_view (trees.now).items)) }
{
    'trees: for tree in trees {
        push_tablets(tree, tablets)?;
    }
    Ok(())
}
