// Laws of places that are filled.

ghost use Rattle.dr_tree.specs.GrowingLaws.{AnyOrderFillsAll};

/// Whatever the order in which the pieces of a tree's tablets are added, each place has its tablet's in the end.
pub fn any_order_fills_all()
    ensures { AnyOrderFillsAll }
{}
