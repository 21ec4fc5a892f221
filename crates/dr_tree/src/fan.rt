//! The tree of a fan.

ghost use Rattle.std.specs.Prelude.{◌≡◌, ◌≤◌, ◌-◌, ℕ, IfOk, OnOk, length, map, take, drop};
ghost use Rattle.std.specs.List.{range_with_len};
ghost use Rattle.dr_partials.specs.Trees as meant;
ghost use Rattle.dr_tree.specs.Fan.{all_grown, server_before, servers_of};
ghost use Rattle.dr_tree.specs.Views.{all_views, tree_view};

use crate::tree::Tree;
use dr_memory::NoMemory;
use std::alloc::Global;
use std::collections::VecDeque;

/// The tree of the tablets 0 to n - 1, of one at least: level by level, `fan` neighbours come below one server, until
/// one server is left.
///
/// Errors: want of memory alone.
pub fn of_fan(alloc: Global, n: u32, fan: u32) -> Result<Tree, NoMemory>
    requires tablets { 1 ≤ n }
    requires fan { 1 ≤ fan }
    ensures { IfOk result (λ t. tree_view t ≡ meant.of_fan n fan) }
{
    let servers = leaf_servers(alloc, n)?;
    grow(alloc, n, (fan - 1) as usize, servers)
}

/// Leaf servers with the tablets 0 to n - 1.
fn leaf_servers(alloc: Global, n: u32) -> Result<VecDeque<Tree>, NoMemory>
    ensures { IfOk result (λ v. all_views v.items ≡ map meant.leaf_server (range_with_len 0 n)) }
{
    let mut servers = VecDeque::new(alloc);
    'tablets: for tablet in 0..n {
        servers.push_back(Tree::Leaf(tablet))?;
    }
    Ok(servers)
}

/// The server that is left of some trees after so many levels: where several are left then, they come below one.
fn grow(alloc: Global, levels: u32, more: usize, trees: VecDeque<Tree>) -> Result<Tree, NoMemory>
    ensures { IfOk result (λ t. tree_view t ≡ all_grown levels more (all_views trees.items)) }
{
    let mut trees = trees;
    'levels: for _ in 0..levels {
        if trees.len() > 1 {
            trees = next_level(alloc, trees, more)?;
        }
    }
    one_server(alloc, trees)
}

/// Neighbours below servers, of which each has so many children at most beside its first.
fn next_level(alloc: Global, trees: VecDeque<Tree>, more: usize) -> Result<VecDeque<Tree>, NoMemory>
    ensures { IfOk result (λ v. all_views v.items ≡ servers_of more (all_views trees.items)) }
{
    let mut trees = trees;
    let mut servers = VecDeque::new(alloc);
    'servers: for _ in 0..trees.len() {
        if let Some(server) = next_server(alloc, &mut trees, more)? {
            servers.push_back(server)?;
        }
    }
    Ok(servers)
}

/// An intermediate server of the next trees: the first, and so many more at most. None where no tree is left.
fn next_server(
    alloc: Global,
    trees: &mut VecDeque<Tree>,
    more: usize,
) -> Result<Option<Tree>, NoMemory>
    ensures servers { IfOk result (λ s. servers_of more (all_views (trees.old).items)
        ≡ server_before s (servers_of more (all_views (trees.new).items))) }
    ensures fewer { OnOk result (length (trees.new).items ≤ length (trees.old).items - 1) }
{
    let Some(first) = trees.pop_front() else {
        return Ok(None);
    };
    let rest = next_trees(alloc, trees, more)?;
    Ok(Some(Tree::Inner(Box::new(alloc, first)?, rest)))
}

/// Takes the next trees, so many at most.
fn next_trees(alloc: Global, trees: &mut VecDeque<Tree>, most: usize) -> Result<Vec<Tree>, NoMemory>
    ensures taken { IfOk result (λ v. v.items ≡ take most (trees.old).items) }
    ensures left { OnOk result ((trees.new).items ≡ drop most (trees.old).items) }
{
    let mut taken = Vec::new(alloc);
    'trees: for _ in 0..most {
        let Some(tree) = trees.pop_front() else {
            return Ok(taken);
        };
        taken.push(tree)?;
    }
    Ok(taken)
}

/// One server: the only tree, or one with all of them as its children.
fn one_server(alloc: Global, trees: VecDeque<Tree>) -> Result<Tree, NoMemory>
    ensures { (more : ℕ) → IfOk result (λ t. tree_view t ≡ all_grown 0 more (all_views trees.items)) }
{
    let mut trees = trees;
    let Some(first) = trees.pop_front() else {
        return Ok(Tree::Leaf(0));
    };
    if trees.is_empty() {
        return Ok(first);
    }
    Ok(Tree::Inner(Box::new(alloc, first)?, Vec::from(trees)))
}
