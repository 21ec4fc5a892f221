// Laws of the walk of records and of the orders of leaves.

ghost use Rattle.dr_meaning.specs.AutomatonLaws.{AutomatonVisitsWalk};
ghost use Rattle.dr_meaning.specs.OrderLaws.{OrdersHaveEachOnce};
ghost use Rattle.dr_meaning.specs.WalkLaws.{WalkGivesColumns, WalkNests};

/// The walk of records gives of each selected leaf its column, in order.
pub fn walk_gives_columns()
    ensures { WalkGivesColumns }
{}

/// Schema order and reading order have each selected leaf once.
pub fn orders_have_each_once()
    ensures { OrdersHaveEachOnce }
{}

/// Each move of the walk of records nests on what is open there, and in the end no record is open.
pub fn walk_nests()
    ensures { WalkNests }
{}

/// Over the columns of a record the automaton of leaves in reading order goes from leaf to leaf as the walk does.
pub fn automaton_visits_walk()
    ensures { AutomatonVisitsWalk }
{}
