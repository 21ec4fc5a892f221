//! Taking a record back from the branches of a tree.

ghost use Rattle.std.specs.Prelude.{◌≡◌};
ghost use Rattle.dr_striper.specs.Views.{twig_view, twigs_view, shape_view, shapes_view};
ghost use Rattle.dr_striper.specs.Back.{back_view, backs};

use crate::branch::Branch;

/// Takes the last record out of branches, of so many levels above which were there before.
#[cycle(cutting)]
pub(crate) fn take_back(branches: &mut [Branch], kept: usize)
    ensures back { twigs_view branches.new ≡ backs kept branches.old }
    ensures shapes { shapes_view branches.new ≡ shapes_view branches.old }
{
    'branches: for number in 0..branches.len() {
        take_back_one(&mut branches[number], kept);
    }
}

#[cycle(cutting)]
fn take_back_one(branch: &mut Branch, kept: usize)
    ensures back { twig_view branch.new ≡ back_view branch.old kept }
    ensures shape { shape_view branch.new ≡ shape_view branch.old }
{
    match branch {
        Branch::Nothing => {}
        Branch::Leaf(_, leaf) => leaf.take_back(kept),
        Branch::Group(_, group, inner) => {
            group.take_back(kept);
            take_back(inner, group.levels.len());
        }
    }
}
