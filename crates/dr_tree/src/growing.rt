//! What a tree gathers of partials that come in any order.

ghost use Rattle.std.specs.Prelude.{◌≡◌, ℕ, IfOk, OnErr, OnOk, map};
ghost use Rattle.dr_meaning.specs.Schema.{Fields};
ghost use Rattle.dr_partials.specs.Partials as meant;
ghost use Rattle.dr_partials.specs.Trees.{gathered, tablets_of};
ghost use Rattle.dr_plan.specs.Planned.{plan_view};
ghost use Rattle.dr_group.specs.Partials.{partial_view, IsPartialOf};
ghost use Rattle.dr_tree.specs.Grows.{AreBare, AreFree, CanAdd, Growth, Grows, grown_query, not_grown, partial_of_lines, with_added};
ghost use Rattle.dr_tree.specs.Piles.{partial_of_groups};
ghost use Rattle.dr_tree.specs.Places.{pieces_at};
ghost use Rattle.dr_tree.specs.Views.{tree_view};
ghost use Rattle.dr_tree.specs.Waiting.{lines_of};

use crate::joined::merge_subtrees;
use crate::subtree::{Subtree, add_to_subtree, bare_subtrees};
use crate::tree::Tree;
use crate::waiting::{Waiting, append_all, append_ready, free_places, keep};
use dr_cells::RowsOut;
use dr_group::{GroupMap, Partial};
use dr_memory::NoMemory;
use dr_plan::Plan;
use std::alloc::Global;
use std::collections::VecDeque;
use std::thread::Threads;

/// What a tree gathers of its tablets' partials, which are added in any order. Lines wait for those of the tablets to
/// their left. Groups are merged as they come with others that came below the same child of the root: they are piled,
/// and the last of a pile are merged with those before them, unless these are more than twice as many. So of each child
/// no more groups are held than twice those of what it gathers, where there is memory to merge them, and all that come
/// are moved about as often as in a merge sort.
#[derive(Drop)]
pub struct Growing {
    // Of lines those that are appended; of groups those of no records.
    pub(crate) grown: Partial,
    // Of groups the root's children, with what came below each. Lines need none.
    pub(crate) subtrees: Vec<Subtree>,
    // Of lines the leaf servers whose aren't appended to what has grown, in order. Groups need no places.
    pub(crate) waiting: VecDeque<Waiting>,
}

impl Growing {
    /// What a tree gathers before any partial is added: of each tablet, that of no records.
    ///
    /// Errors: want of memory alone.
    pub fn new(alloc: Global, tree: &Tree, plan: &Plan) -> Result<Growing, NoMemory>
        ensures { IfOk result (λ g. (fs : Fields)
            → Grows (not_grown (plan_view plan.now) fs (tree_view tree.now)) g) }
    {
        let grown = Partial::empty(alloc, plan)?;
        let subtrees = subtrees_for(alloc, tree, &grown)?;
        let waiting = waiting_for(alloc, tree, &grown)?;
        Ok(Growing {
            grown,
            subtrees,
            waiting,
        })
    }

    /// Adds the partial of a tablet that has none yet.
    ///
    /// Errors: want of memory alone. The tablet isn't added then, and all else is as it was. Lines are never refused:
    /// where there is no memory to append them, they wait on. So do groups where there is none to merge them.
    pub fn add(&mut self, alloc: Global, tablet: u32, partial: Partial) -> Result<(), NoMemory>
        requires { (w : Growth) × Grows w self.old × CanAdd w tablet partial }
        ensures added { (w : Growth) → Grows w self.old → CanAdd w tablet partial
            → OnOk result (Grows (with_added w tablet (partial_view partial)) self.new) }
        ensures refused { (w : Growth) → Grows w self.old → OnErr result (Grows w self.new) }
    {
        match partial {
            Partial::Lines(lines) => {
                self.add_lines(tablet, lines);
                Ok(())
            }
            Partial::Groups(groups) => self.add_groups(alloc, tablet, groups),
        }
    }

    /// Adds the lines of a tablet that has none yet.
    fn add_lines(&mut self, tablet: u32, lines: RowsOut)
        requires { (w : Growth) × Grows w self.old × CanAdd w tablet (partial_of_lines lines) }
        ensures { (w : Growth) → Grows w self.old → CanAdd w tablet (partial_of_lines lines)
            → Grows (with_added w tablet (lines_of lines)) self.new }
    {
        keep(&mut self.waiting, tablet, lines);
        if let Partial::Lines(rows) = &mut self.grown {
            append_ready(rows, &mut self.waiting);
        }
    }

    /// Adds the groups of a tablet that has none yet.
    ///
    /// Errors: want of memory alone. All is as it was then.
    fn add_groups(&mut self, alloc: Global, tablet: u32, groups: GroupMap) -> Result<(), NoMemory>
        requires { (w : Growth) × Grows w self.old × CanAdd w tablet (partial_of_groups groups) }
        ensures added { (w : Growth) → Grows w self.old → CanAdd w tablet (partial_of_groups groups)
            → OnOk result (Grows (with_added w tablet (partial_view (partial_of_groups groups))) self.new) }
        ensures refused { (w : Growth) → Grows w self.old → OnErr result (Grows w self.new) }
    {
        add_to_subtree(alloc, &mut self.subtrees, tablet, groups)
    }

    /// What the tree gathers of the partials that were added, and of each other tablet of that of no records. Where
    /// all were added, that is what `gather` gives. Of groups the root's children are merged at the same time, and then
    /// what they gave, where there are enough to be worth a thread.
    ///
    /// Errors: want of memory, or of room: the texts of lines have less than 4 GiB together, and the number of groups
    /// is bounded.
    pub fn finish<R: Threads + Sync>(self, rt: &R, alloc: Global) -> Result<Partial, NoMemory>
        requires { (w : Growth) × Grows w self }
        ensures gathered { IfOk result (λ r. (w : Growth) (piece : ℕ → meant.Partial) → Grows w self
            → map piece (tablets_of w.tree) ≡ pieces_at (grown_query w) w.places
            → partial_view r ≡ gathered piece w.tree) }
        ensures of_plan { IfOk result (λ r. (w : Growth) → Grows w self → IsPartialOf w.plan r) }
    {
        let Growing {
            grown,
            subtrees,
            waiting,
        } = self;
        match grown {
            Partial::Lines(rows) => Ok(Partial::Lines(append_all(rows, waiting)?)),
            Partial::Groups(none) => match merge_subtrees(rt, alloc, subtrees)? {
                Some(all) => Ok(Partial::Groups(all)),
                None => Ok(Partial::Groups(none)),
            },
        }
    }
}

/// The children of a tree's root, to which nothing came; none where lines are gathered.
fn subtrees_for(alloc: Global, tree: &Tree, grown: &Partial) -> Result<Vec<Subtree>, NoMemory>
    ensures { IfOk result (λ v. AreBare grown.now v.items) }
{
    match grown {
        Partial::Groups(_) => bare_subtrees(alloc, tree),
        Partial::Lines(_) => Ok(Vec::new(alloc)),
    }
}

/// The leaf servers of a tree without lines, in order; none where groups are gathered.
fn waiting_for(alloc: Global, tree: &Tree, grown: &Partial) -> Result<VecDeque<Waiting>, NoMemory>
    ensures { IfOk result (λ v. AreFree (tablets_of (tree_view tree.now)) grown.now v.items) }
{
    match grown {
        Partial::Groups(_) => Ok(VecDeque::new(alloc)),
        Partial::Lines(_) => free_places(alloc, tree),
    }
}
