// The steps of seats. Each is one step on a word of the table; none takes memory or waits.
ghost use Rattle.std.specs.Prelude.{◌≡◌, ◌==◌, ◌+◌, ◌^◌, ◌<◌, [], length, true, false, if◌then◌else◌};
ghost use mathlib.Core.List.{IsPrefix};
ghost use Rattle.dr_dispatch.specs.Seen.{Ascends};
ghost use Rattle.dr_dispatch.specs.Seats.{handed, gathered, passed, keeper_of, newcomer_of, looked, added, drawing, MetFits};

use crate::rule::{Adds, Draws, Gathers, Hands, Looks, Newcomers, Passes, Place, Seats};
use dr_dispatch::Event;

const COUNT: usize = 0;

const NEXT: usize = 1;

// The keeper reads the number of events, and learns how what it met fits to the history.
pub(crate) fn look(seats: &Seats, seat: &mut Place)
    requires seat { (seat.old.table_id ≡ seats.now.table_id) × (0 < seats.now.table_id.words) }
    requires keeps { seat.old.me.0.keeps ≡ true }
    ensures seat { seat.new.table_id ≡ seat.old.table_id }
    ensures view { seat.new.me ≡ (looked seat.old.me.0, seat.old.me.1) }
    ensures met { MetFits seat.old.me.0.seen seat.old.me.0.own seat.old.me.0.met }
{
    seats.load::<Looks>(seat, COUNT);
}

// The keeper's seat joins a pass's, which learns that what it has seen begins the history.
pub(crate) fn enter(seats: &Seats, seat: &mut Place, keeper: Place)
    requires seat { (seat.old.table_id ≡ seats.now.table_id) × (0 < seats.now.table_id.words) }
    requires keeper { (keeper.table_id ≡ seats.now.table_id) × (keeper.me.1 ≡ []) × (keeper.me.0.keeps ≡ true)
        × (keeper.me.0.own ≡ []) × (keeper.me.0.drawn ≡ []) }
    requires ordered { Ascends 0 seat.old.me.0.own (length seat.old.me.0.seen) }
    ensures seat { seat.new.table_id ≡ seat.old.table_id }
    ensures view { seat.new.me ≡ (looked (handed seat.old.me.0 keeper.me.0), seat.old.me.1) }
    ensures drawn { seat.new.me.0.drawn ≡ seat.old.me.0.drawn }
    ensures earlier { IsPrefix seat.old.me.0.seen keeper.me.0.seen }
    ensures ordered { Ascends 0 seat.new.me.0.own (length seat.new.me.0.seen) }
{
    seats.join_seat::<Hands>(seat, keeper);
    look(seats, seat);
}

// The keeper raises the number of events, from `count`, by this event.
pub(crate) fn raise(seats: &Seats, seat: &mut Place, count: u64, event: &Event)
    requires seat { (seat.old.table_id ≡ seats.now.table_id) × (0 < seats.now.table_id.words) }
    requires keeps { seat.old.me.0.keeps ≡ true }
    requires count { length seat.old.me.0.seen ≡ count }
    requires room { count + 1 < 2 ^ 64 }
    requires ordered { Ascends 0 seat.old.me.0.own (length seat.old.me.0.seen) }
    ensures seat { seat.new.table_id ≡ seat.old.table_id }
    ensures view { seat.new.me ≡ (added count event.now seat.old.me.0, seat.old.me.1) }
    ensures ordered { Ascends 0 seat.new.me.0.own (length seat.new.me.0.seen) }
{
    seats.compare_exchange_with::<Adds>(seat, COUNT, count, count + 1, event);
}

// The keeper's seat is split from a pass's.
pub(crate) fn leave(seats: &Seats, seat: &mut Place) -> Place
    requires seat { (seat.old.table_id ≡ seats.now.table_id) × (0 < seats.now.table_id.words) }
    requires keeps { seat.old.me.0.keeps ≡ true }
    ensures seat { seat.new.table_id ≡ seat.old.table_id }
    ensures view { seat.new.me ≡ (passed seat.old.me.0, seat.old.me.1) }
    ensures keeper { (result.table_id ≡ seat.old.table_id) × (result.me ≡ (keeper_of seat.old.me.0, [])) }
{
    seats.split_seat::<Passes>(seat)
}

// A new pass's seat is split from the keeper's.
pub(crate) fn newcomer(seats: &Seats, keeper: &mut Place) -> Place
    requires seat { (keeper.old.table_id ≡ seats.now.table_id) × (0 < seats.now.table_id.words) }
    ensures keeper { (keeper.new.table_id ≡ keeper.old.table_id) × (keeper.new.me ≡ keeper.old.me) }
    ensures seat { (result.table_id ≡ keeper.old.table_id) × (result.me ≡ (newcomer_of keeper.old.me.0, [])) }
{
    seats.split_seat::<Newcomers>(keeper)
}

// A pass's seat joins the keeper's.
pub(crate) fn gather(seats: &Seats, keeper: &mut Place, seat: Place)
    requires keeper { (keeper.old.table_id ≡ seats.now.table_id) × (0 < seats.now.table_id.words) }
    requires seat { (seat.table_id ≡ seats.now.table_id) × (seat.me.1 ≡ []) }
    requires keeps { keeper.old.me.0.keeps ≡ true }
    ensures keeper { keeper.new.table_id ≡ keeper.old.table_id }
    ensures view { keeper.new.me ≡ (gathered keeper.old.me.0 seat.me.0, keeper.old.me.1) }
{
    seats.join_seat::<Gathers>(keeper, seat);
}

// A pass draws the next tablet to be drawn, if it is `next`, and tells which it was.
pub(crate) fn draw(seats: &Seats, seat: &mut Place, next: u64) -> u64
    requires seat { (seat.old.table_id ≡ seats.now.table_id) × (1 < seats.now.table_id.words) }
    requires rests { seat.old.me.0.keeps ≡ false }
    requires tablet { next < seats.now.key }
    requires room { next + 1 < 2 ^ 64 }
    requires ordered { Ascends 0 seat.old.me.0.drawn next }
    ensures seat { seat.new.table_id ≡ seat.old.table_id }
    ensures view { seat.new.me ≡ (
      if result == next then drawing next seat.old.me.0 else seat.old.me.0,
      seat.old.me.1,
    ) }
    ensures ordered { Ascends 0 seat.new.me.0.drawn (if result == next then next + 1 else result) }
{
    seats.compare_exchange::<Draws>(seat, NEXT, next, next + 1)
}
