//! Nodes, as records are held in them.

ghost use Rattle.std.specs.Prelude.{◌≡◌};
ghost use Rattle.dr_nested.specs.Views.{instance_view, instances_view};
ghost use Rattle.dr_striper.specs.Striping.{inside_view};

use crate::held::Held;
use crate::inside::Inside;
use dr_levels::ValueRef;
use dr_nested::{Instance, instances_at};

fn look_inside(instance: &Instance) -> Inside<'_>
    ensures { inside_view result ≡ instance_view instance.now }
{
    match instance {
        Instance::Atom(value) => Inside::Atom(value),
        Instance::Group(node) => Inside::Group(node),
    }
}

impl<'a> Held for Inside<'a> {
    type List = &'a [Instance];

    ghost shows = { inside_view };

    ghost lists = { λ l. instances_view l.now };

    fn value(&self) -> Option<ValueRef<'_>> {
        match self {
            Inside::Atom(value) => Some(ValueRef::of(value)),
            Inside::Group(_) => None,
        }
    }

    fn instances_in(self, place: usize) -> &'a [Instance] {
        match self {
            Inside::Atom(_) => &[],
            Inside::Group(node) => instances_at(node, place),
        }
    }

    fn cut_first(list: &'a [Instance]) -> Option<(Inside<'a>, &'a [Instance])> {
        match list {
            [] => None,
            [first, later @ ..] => Some((look_inside(first), later)),
        }
    }
}
