//! The values of one leaf in the rows of a source.

ghost use Rattle.std.specs.Prelude.{◌≡◌, ◌<◌, ◌≤◌, length, option_map, true};
ghost use Rattle.dr_levels.specs.Views.{lent_value};
ghost use Rattle.dr_rows_beside.specs.Places.{place_left};
ghost use Rattle.dr_rows_beside.specs.Rows.{follower_view, stepped};
ghost use Rattle.dr_columns.specs.LeafRows.{is_enough, found_beside, value_there};

use dr_levels::{Triplets, ValueRef};
use dr_rows_beside::{Beside, Place, Source};

/// A leaf of a source from the next row on: the source's own, or one beside it.
#[derive(Clone, Copy)]
pub(crate) struct LeafRows<'r> {
    own: Place<'r>,
    beside: Option<Place<'r>>,
    /// What the leaf beside had in the last row.
    value: Option<ValueRef<'r>>,
    pub ghost fed: { is_enough beside (place_left own) ≡ true },
}

/// The leaf of a number among those that are read beside one.
fn find_beside(leaf: u32, beside: &[Beside]) -> Option<Beside>
    ensures { result ≡ found_beside leaf beside.now }
{
    match beside {
        [] => None,
        [first, rest @ ..] => {
            if first.leaf == leaf {
                Some(*first)
            } else {
                find_beside(leaf, rest)
            }
        }
    }
}

/// What a leaf beside has at a repetition level: its next value, where it goes on; else its last one.
#[inline(always)]
fn go_on<'r>(
    beside: &mut Place<'r>,
    repetition: u8,
    value: Option<ValueRef<'r>>,
) -> Option<ValueRef<'r>>
    requires { repetition ≤ (beside.old).depth → 0 < length (place_left beside.old) }
    ensures value { option_map lent_value result
        ≡ value_there repetition (option_map lent_value value.entry) (follower_view beside.old) }
    ensures place { follower_view beside.new ≡ stepped repetition (follower_view beside.old) }
{
    if repetition <= beside.depth {
        return beside.next();
    }
    value
}

impl<'r> LeafRows<'r> {
    ghost use Rattle.std.specs.Prelude.{◌∷◌, [], map, IfSome};
    ghost use Rattle.std.specs.List.{list_all};
    ghost use Rattle.dr_levels.specs.Views.{triplets_view};
    ghost use Rattle.dr_beside.specs.Neighbours.{column_at};
    ghost use Rattle.dr_columns.specs.LeafRows.{NextValue};
    ghost use Rattle.dr_columns.specs.LeafRowsView.{leaf_left};
    ghost use Rattle.dr_rows_beside.specs.RecordRows.{rows_of};
    ghost use Rattle.dr_rows_beside.specs.Rows.{source_view, is_fed, is_apart, all_apart, in_slot};
    ghost use Rattle.dr_rows_beside.specs.Sources.{AreReadBeside};

    /// Before the first row; none for a leaf that is neither a source's own nor beside it.
    pub(crate) fn of(leaf: u32, source: &Source, columns: &[Triplets<'r>]) -> Option<LeafRows<'r>>
        requires leaf { (source.now).leaf < length columns.now }
        requires apart { is_apart (source.now).leaf
            (map (source_view (map triplets_view columns.now)) ((source.now).beside).items) ≡ true }
        requires different { all_apart
            (map (source_view (map triplets_view columns.now)) ((source.now).beside).items) ≡ true }
        requires fed { list_all
            (is_fed (column_at (map triplets_view columns.now) (source.now).leaf) (length columns.now))
            (map (source_view (map triplets_view columns.now)) ((source.now).beside).items) ≡ true }
        ensures left { IfSome result (λ r. leaf_left r ≡ in_slot leaf
            (rows_of (source.now).leaf ((source.now).beside).items (map triplets_view columns.now))) }
        ensures read { IfSome result (λ r.
            AreReadBeside (source.now).leaf ((source.now).beside).items (leaf ∷ [])) }
    {
        let own = Place::new(source.leaf, 0, columns);
        if leaf == source.leaf {
            return Some(LeafRows {
                own,
                beside: None,
                value: None,
            });
        }
        let Some(other) = find_beside(leaf, &source.beside) else {
            return None;
        };
        Some(LeafRows {
            own,
            beside: Some(Place::new(other.leaf, other.depth, columns)),
            value: None,
        })
    }

    /// The leaf's value in the next row, or NULL; none at the end.
    #[inline(always)]
    pub(crate) fn next(&mut self) -> Option<Option<ValueRef<'r>>>
        ensures { NextValue (leaf_left self.old) (leaf_left self.new) result }
    {
        let Some(repetition) = self.own.peek() else {
            return None;
        };
        match &mut self.beside {
            None => Some(self.own.next()),
            Some(other) => {
                self.own.next();
                self.value = go_on(other, repetition, self.value);
                Some(self.value)
            }
        }
    }
}
