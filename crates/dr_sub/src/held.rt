//! Objects of a result as records are held in them, so that a striper takes them.

ghost use Rattle.std.specs.Prelude.{◌≡◌};
ghost use Rattle.dr_meaning.specs.Record as record_tree;
ghost use Rattle.dr_sub.specs.PlacedRows.{held_view, list_of, object_at, instances_behind};

use crate::placed::{Placed, PlacedList, Spot};
use crate::reading::value_at;
use dr_ends::{count_at, end_of_lists, end_of_object, skip};
use dr_levels::ValueRef;
use dr_striper::Held;

impl<'a> Spot<'a> {
    /// What the field at a place of the object has: first come its values, then its lists.
    fn instances_at(self, place: usize) -> PlacedList<'a>
        ensures { list_of result ≡ record_tree.instances_at place (object_at self.entry) }
    {
        let values = self.shape.names.len();
        if place < values {
            return value_at(self.cells, skip(self.cells, self.at, place));
        }
        self.list_at(place - values)
    }

    /// The objects of the list of a number.
    fn list_at(self, number: usize) -> PlacedList<'a>
        ensures { list_of result ≡ instances_behind number self.entry }
    {
        let lists = &self.shape.lists;
        if number >= lists.len() {
            return PlacedList::Nothing;
        }
        let counts = skip(self.cells, self.at, self.shape.names.len());
        let inner = skip(self.cells, counts, lists.len());
        let at = end_of_lists(lists, self.cells, counts, inner, number);
        let count = count_at(self.cells, skip(self.cells, counts, number));
        let spot = Spot {
            shape: &lists[number].shape,
            cells: self.cells,
            at,
        };
        PlacedList::Objects(spot, count)
    }
}

impl<'a> Held for Placed<'a> {
    type List = PlacedList<'a>;

    ghost shows = { held_view };

    ghost lists = { list_of };

    fn value(&self) -> Option<ValueRef<'_>> {
        match self {
            Placed::Value(value) => Some(*value),
            Placed::Object(_) => None,
        }
    }

    fn instances_in(self, place: usize) -> PlacedList<'a> {
        match self {
            Placed::Value(_) => PlacedList::Nothing,
            Placed::Object(spot) => spot.instances_at(place),
        }
    }

    fn cut_first(list: PlacedList<'a>) -> Option<(Placed<'a>, PlacedList<'a>)> {
        match list {
            PlacedList::Nothing => None,
            PlacedList::One(value) => Some((Placed::Value(value), PlacedList::Nothing)),
            PlacedList::Objects(spot, count) => {
                if count == 0 {
                    return None;
                }
                let behind = Spot {
                    shape: spot.shape,
                    cells: spot.cells,
                    at: end_of_object(spot.shape, spot.cells, spot.at),
                };
                Some((Placed::Object(spot), PlacedList::Objects(behind, count - 1)))
            }
        }
    }
}
