//! What a tree gathers of the partials of its tablets.

ghost use Rattle.std.specs.Prelude.{◌≡◌, ◌++◌, ◌∷◌, [], ◌^◌, ℕ, IfOk, length, map};
ghost use Rattle.dr_partials.specs.PartialBounds.{PartialCanBeOf};
ghost use denote.Param.Send.{IsSync};
ghost use Rattle.dr_meaning.specs.Schema.{Fields};
ghost use Rattle.dr_meaning.specs.Query.{Query};
ghost use Rattle.dr_partials.specs.Partials as meant;
ghost use Rattle.dr_partials.specs.Trees.{gathered, gathered_behind, tablets_of, tablets_of_all};
ghost use Rattle.dr_plan.specs.Planned.{Planned};
ghost use Rattle.dr_group.specs.Partials.{partial_view, AreAlike, IsPartialOf};
ghost use Rattle.dr_tree.specs.Together.{AreBounded, AreOfPlan, IsBounded, IsGathered, IsMerged, Together, partials_view, tablets_under, gathered_under, tablets_with, gathered_with};
ghost use Rattle.dr_tree.specs.Views.{tree_view, trees_view};

use crate::tree::{Tree, count_tablets};
use dr_group::Partial;
use dr_memory::NoMemory;
use std::alloc::Global;
use std::thread::{Threads, join};

/// What a tree gathers of the partials of its tablets, given in the order of its leaf servers: an intermediate server
/// merges what its children gather, in their order. Children that are intermediate servers gather at the same time.
///
/// Errors: want of memory, or of room: the texts of lines have less than 4 GiB together, and the number of groups is
/// bounded.
pub fn gather<R: Threads + Sync>(
    rt: &R,
    alloc: Global,
    tree: &Tree,
    partials: Vec<Partial>,
) -> Result<Partial, NoMemory>
    requires tablets { length partials.items ≡ length (tablets_of (tree_view tree.now)) }
    requires together { Together partials.items }
    ensures gathered { IfOk result (λ r. (piece : ℕ → meant.Partial) → map piece (tablets_of (tree_view tree.now))
        ≡ partials_view partials.items
        → partial_view r ≡ gathered piece (tree_view tree.now)) }
    ensures of_plan { IfOk result (λ r. (p : Planned) → AreOfPlan p partials.items → IsPartialOf p r) }
    ensures bounded { IfOk result (λ r. (fs : Fields) (q : Query) (most : ℕ)
        → AreBounded fs q most (partials_view partials.items)
        → IsBounded fs q most (partial_view r)) }
{
    gather_tree(rt, alloc, tree, partials)
}

/// What a tree gathers.
#[cycle(gathering)]
fn gather_tree<R: Threads + Sync>(
    rt: &R,
    alloc: Global,
    tree: &Tree,
    partials: Vec<Partial>,
) -> Result<Partial, NoMemory>
    requires tablets { length partials.items ≡ length (tablets_of (tree_view tree.now)) }
    requires together { Together partials.items }
    ensures { IfOk result (IsGathered (tablets_of (tree_view tree.now))
        (λ piece. gathered piece (tree_view tree.now)) partials.items) }
{
    match tree {
        Tree::Leaf(_) => only(partials),
        Tree::Inner(first, rest) => gather_children(rt, alloc, first, rest, partials),
    }
}

/// The only one of some partials.
fn only(partials: Vec<Partial>) -> Result<Partial, NoMemory>
    requires { length partials.items ≡ 1 }
    ensures { (tablet : ℕ) → IfOk result (IsGathered (tablet ∷ []) (λ piece. piece tablet) partials.items) }
{
    let mut partials = partials;
    match partials.pop() {
        Some(partial) => Ok(partial),
        None => Err(NoMemory),
    }
}

/// What the children of a server gather together.
#[cycle(gathering)]
fn gather_children<R: Threads + Sync>(
    rt: &R,
    alloc: Global,
    first: &Tree,
    rest: &[Tree],
    partials: Vec<Partial>,
) -> Result<Partial, NoMemory>
    requires tablets { length partials.items
        ≡ length (tablets_of (tree_view first.now) ++ tablets_of_all (trees_view rest.now)) }
    requires together { Together partials.items }
    ensures { IfOk result (IsGathered (tablets_under first.now rest.now)
        (λ piece. gathered_under first.now rest.now piece) partials.items) }
{
    match rest.split_last() {
        None => gather_tree(rt, alloc, first, partials),
        Some((last, front)) => {
            let mut partials = partials;
            let at = partials.len() - count_tablets(last);
            let behind = partials.split_off(at)?;
            gather_last(rt, alloc, first, front, partials, last, behind)
        }
    }
}

/// What some children and a last one gather. Where the last is no leaf server, it gathers while the others do.
#[cycle(gathering)]
fn gather_last<R: Threads + Sync>(
    rt: &R,
    alloc: Global,
    first: &Tree,
    front: &[Tree],
    partials: Vec<Partial>,
    last: &Tree,
    behind: Vec<Partial>,
) -> Result<Partial, NoMemory>
    requires front { length partials.items ≡ length
        (tablets_of (tree_view first.now) ++ tablets_of_all (trees_view front.now)) }
    requires last { length behind.items ≡ length (tablets_of (tree_view last.now)) }
    requires together { Together (partials.items ++ behind.items) }
    ensures { IfOk result (IsGathered (tablets_with first.now front.now last.now)
        (λ piece. gathered_with first.now front.now last.now piece) (partials.items ++ behind.items)) }
{
    if let Tree::Leaf(_) = last {
        let mine = gather_children(rt, alloc, first, front, partials)?;
        let theirs = only(behind)?;
        return merged(alloc, mine, theirs);
    }
    let mine = move || -> Result<Partial, NoMemory>
        requires { IsSync R.row × (length partials.items
            ≡ length (tablets_of (tree_view first.now) ++ tablets_of_all (trees_view front.now)))
            × Together partials.items }
        ensures { IfOk result (IsGathered (tablets_of (tree_view first.entry.now)
            ++ tablets_of_all (trees_view front.entry.now))
            (λ piece. gathered_behind piece (gathered piece (tree_view first.entry.now))
            (trees_view front.entry.now)) partials.items) }
    { gather_children(rt, alloc, first, front, partials) };
    let theirs = move || -> Result<Partial, NoMemory>
        requires { IsSync R.row × (length behind.items ≡ length (tablets_of (tree_view last.now)))
            × Together behind.items }
        ensures { IfOk result (IsGathered (tablets_of (tree_view last.entry.now))
            (λ piece. gathered piece (tree_view last.entry.now)) behind.items) }
    { gather_tree(rt, alloc, last, behind) };
    let (mine, theirs) = join(rt, mine, theirs);
    merged(alloc, mine?, theirs?)
}

/// Two partials of one plan, merged.
fn merged(alloc: Global, mine: Partial, theirs: Partial) -> Result<Partial, NoMemory>
    requires alike { AreAlike mine theirs }
    requires mine { PartialCanBeOf (2 ^ 60) (partial_view mine) }
    requires theirs { PartialCanBeOf (2 ^ 60) (partial_view theirs) }
    ensures { IfOk result (IsMerged mine theirs) }
{
    let mut mine = mine;
    mine.merge(alloc, theirs)?;
    Ok(mine)
}
