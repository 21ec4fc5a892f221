//! The groups that come below a child of a tree's root.

ghost use Rattle.std.specs.Prelude.{◌≡◌, ◌<◌, ◌++◌, ◌∷◌, [], IfOk, OnErr, OnOk, length};
ghost use Rattle.dr_partials.specs.Trees.{tablets_of};
ghost use Rattle.dr_tree.specs.Piles.{CanMerge, StaysPile};
ghost use Rattle.dr_tree.specs.Subtrees.{all_piled, tablets_below, tablets_by_child, tablets_of_each};
ghost use Rattle.dr_tree.specs.Views.{tree_view, trees_view};

use crate::piled::add_to_pile;
use crate::tree::{Tree, push_tablets};
use dr_group::GroupMap;
use dr_memory::NoMemory;
use std::alloc::Global;

/// A child of a tree's root, with all below it.
#[derive(Drop)]
pub(crate) struct Subtree {
    // The tablets of its leaf servers, in order.
    pub(crate) tablets: Vec<u32>,
    // The groups of those that came.
    pub(crate) pile: Vec<GroupMap>,
}

/// One to which nothing came.
fn bare_subtree(alloc: Global, tree: &Tree) -> Result<Subtree, NoMemory>
    ensures tablets { IfOk result (λ s. s.tablets.items ≡ tablets_of (tree_view tree.now)) }
    ensures bare { IfOk result (λ s. s.pile.items ≡ []) }
{
    let mut tablets = Vec::new(alloc);
    push_tablets(tree, &mut tablets)?;
    Ok(Subtree {
        tablets,
        pile: Vec::new(alloc),
    })
}

/// Those of a tree, in order; a leaf server alone is its own. Nothing came to them.
///
/// Errors: want of memory alone.
pub(crate) fn bare_subtrees(alloc: Global, tree: &Tree) -> Result<Vec<Subtree>, NoMemory>
    ensures tablets { IfOk result (λ v. tablets_below v.items ≡ tablets_by_child (tree_view tree.now)) }
    ensures some { IfOk result (λ v. 0 < length v.items) }
    ensures bare { IfOk result (λ v. all_piled v.items ≡ []) }
{
    match tree {
        Tree::Leaf(_) => {
            let mut subtrees = Vec::new(alloc);
            subtrees.push(bare_subtree(alloc, tree)?)?;
            Ok(subtrees)
        }
        Tree::Inner(first, rest) => bare_children(alloc, first, rest),
    }
}

/// Those of a root with these children.
fn bare_children(alloc: Global, first: &Tree, rest: &Vec<Tree>) -> Result<Vec<Subtree>, NoMemory>
    ensures tablets { IfOk result (λ v. tablets_below v.items
        ≡ tablets_of (tree_view first.now) ∷ tablets_of_each (trees_view (rest.now).items)) }
    ensures some { IfOk result (λ v. 0 < length v.items) }
    ensures bare { IfOk result (λ v. all_piled v.items ≡ []) }
{
    let mut subtrees = Vec::new(alloc);
    subtrees.push(bare_subtree(alloc, first)?)?;
    'children: for child in rest {
        subtrees.push(bare_subtree(alloc, child)?)?;
    }
    Ok(subtrees)
}

/// The number of the subtree below which a tablet stands, where the tablets of each ascend; of one that isn't found so,
/// that of the first.
fn subtree_of(subtrees: &[Subtree], tablet: u32) -> usize
    requires { 0 < length subtrees.now }
    ensures { result < length subtrees.now }
{
    'subtrees: for at in 0..subtrees.len() {
        if subtrees[at].tablets.binary_search(&tablet).is_ok() {
            return at;
        }
    }
    0
}

/// Adds a tablet's groups to those that came below the same child of the root.
///
/// Errors: want of memory alone. Nothing has changed then.
pub(crate) fn add_to_subtree(
    alloc: Global,
    subtrees: &mut Vec<Subtree>,
    tablet: u32,
    groups: GroupMap,
) -> Result<(), NoMemory>
    requires some { 0 < length (subtrees.old).items }
    requires can_merge { CanMerge (all_piled (subtrees.old).items ++ groups ∷ []) }
    ensures added { OnOk result (StaysPile (all_piled (subtrees.old).items ++ groups ∷ [])
        (all_piled (subtrees.new).items)) }
    ensures refused { OnErr result (all_piled (subtrees.new).items ≡ all_piled (subtrees.old).items) }
    ensures count { length (subtrees.new).items ≡ length (subtrees.old).items }
{
    let at = subtree_of(subtrees, tablet);
    let subtree = &mut subtrees[at];
    add_to_pile(alloc, &mut subtree.pile, groups)
}
