// The table beside the lock: two words, the number of events and the next tablet to be drawn, and the seats of the
// keeper and of all passes.
use atomic_table::{Join, Play, Seat, Shared, Split, Table, TableRule};
use dr_dispatch::{Event, SeatView};
use std::alloc::Global;

pub(crate) type Seats = Shared<Event, SeatView, u64, Law>;

pub(crate) type SeatTable = Table<Event, SeatView, u64, Law, Global>;

pub(crate) type Place = Seat<Event, SeatView>;

// What holds between any two steps, for so many tablets.
pub(crate) struct Law;

impl TableRule<Event, SeatView, u64> for Law {
    ghost use Rattle.std.specs.Prelude.{[]};
    ghost use Rattle.dr_dispatch.specs.Seats.{keeper_at};
    ghost use Rattle.dr_desk.specs.Rule.{Holds};

    ghost holds = { λ tablets s. Holds tablets s };

    ghost first = { λ _. keeper_at [] };
}

// The keeper's seat joins a pass's.
pub(crate) struct Hands;

impl Join<SeatView> for Hands {
    ghost use Rattle.dr_dispatch.specs.Seats.{handed, spent as used};

    ghost both = { handed };

    ghost spent = { used };
}

// A pass's seat joins the keeper's.
pub(crate) struct Gathers;

impl Join<SeatView> for Gathers {
    ghost use Rattle.dr_dispatch.specs.Seats.{gathered, spent as used};

    ghost both = { gathered };

    ghost spent = { used };
}

// The keeper's seat is split from a pass's.
pub(crate) struct Passes;

impl Split<SeatView> for Passes {
    ghost use Rattle.dr_dispatch.specs.Seats.{passed, keeper_of};

    ghost left = { passed };

    ghost right = { keeper_of };
}

// A new pass's seat is split from the keeper's.
pub(crate) struct Newcomers;

impl Split<SeatView> for Newcomers {
    ghost use Rattle.dr_dispatch.specs.Seats.{newcomer_of};

    ghost left = { λ v. v };

    ghost right = { newcomer_of };
}

// The number of events is read.
pub(crate) struct Looks;

impl Play<Event, SeatView> for Looks {
    ghost use Rattle.dr_desk.specs.Rule.{LookTells};

    ghost then = { LookTells };
}

// The number of events is raised, by the event that is said.
pub(crate) struct Adds;

impl Play<Event, SeatView> for Adds {
    ghost use Rattle.dr_desk.specs.Rule.{AddTells};

    ghost then = { AddTells };
}

// The next tablet is drawn, if it is the number that is said.
pub(crate) struct Draws;

impl Play<Event, SeatView> for Draws {
    ghost use Rattle.dr_desk.specs.Rule.{DrawTells};

    ghost then = { DrawTells };
}
