ghost use Rattle.std.specs.Prelude.{◌≡◌, ◌<◌, ◌++◌, ◌∷◌, ◌+◌, ◌^◌, [], length, true};
ghost use mathlib.Core.List.{IsPrefix};
ghost use Rattle.dr_dispatch.specs.Seen.{Ascends};
ghost use Rattle.dr_dispatch.specs.Seats.{keeper_of, passed};

use crate::ground::Ground;
use crate::pass::Pass;
use crate::room::Room;
use crate::rule::{Place, SeatTable, Seats};
use crate::steps::{gather, leave, look, raise};
use dr_dispatch::Event;
use std::marker::{Model, PhantomData};
use std::mem;

/// A list of events that only grows, and that one owner adds to. Each event that is added gives a pass as its receipt:
/// who has it knows that the list has begun so ever since. Its calls take no memory.
#[derive(Drop)]
pub struct Journal<B: Room> {
    table: SeatTable,
    keeper: Place,
    count: u64,
    of: PhantomData<B>,
}

impl<B: Room> Model for Journal<B> {
    ghost use Rattle.std.specs.Prelude.{◌≡◌, List, length};
    ghost use Rattle.dr_dispatch.specs.declared.event.Event.{Event};
    ghost use Rattle.dr_desk.specs.Rule.{IsKeeperSeat};

    ghost Value = { List Event };

    ghost view = { λ j. j.keeper.me.0.seen };

    ghost invariant = { λ j. (j.table.shared.table_id ≡ B.table) × (j.table.shared.table_id.words ≡ 2)
        × IsKeeperSeat B.table j.keeper.table_id j.keeper.me j.keeper.me.0.seen
        × (length j.keeper.me.0.seen ≡ j.count) };
}

impl<B: Room> Journal<B> {
    /// A journal without events.
    pub fn new(ground: Ground) -> Self
        requires { ground.table ≡ B.table }
        ensures { result ≡ [] }
    {
        let Ground { table, keeper } = ground;
        Journal {
            table,
            keeper,
            count: 0,
            of: PhantomData,
        }
    }

    /// Adds an event, and gives a receipt.
    pub fn add(&mut self, event: Event) -> Pass<B>
        requires room { length self.old + 1 < 2 ^ 64 }
        ensures added { self.new ≡ self.old ++ event ∷ [] }
        ensures receipt { result.seen ≡ self.new }
    {
        let table = &self.table;
        raise(&table.shared, &mut self.keeper, self.count, &event);
        self.count += 1;
        receipt_by(&table.shared, &mut self.keeper)
    }

    /// A receipt of all events so far.
    pub fn receipt(&mut self) -> Pass<B>
        ensures same { self.new ≡ self.old }
        ensures receipt { result.seen ≡ self.old }
    {
        let table = &self.table;
        receipt_by(&table.shared, &mut self.keeper)
    }

    /// The journal begins with what a receipt shows.
    pub fn confirm(&mut self, receipt: Pass<B>)
        ensures same { self.new ≡ self.old }
        ensures earlier { IsPrefix receipt.seen self.old }
    {
        let Pass {
            number: _,
            seat,
            next: _,
            of: _,
        } = receipt;
        let table = &self.table;
        gather(&table.shared, &mut self.keeper, seat);
        look(&table.shared, &mut self.keeper);
        let _ = renew(&table.shared, &mut self.keeper);
    }
}

// A new keeper's seat takes the place of one, of which a pass's is left.
fn renew(seats: &Seats, keeper: &mut Place) -> Place
    requires seat { (keeper.old.table_id ≡ seats.now.table_id) × (0 < seats.now.table_id.words) }
    requires keeps { keeper.old.me.0.keeps ≡ true }
    ensures keeper { (keeper.new.table_id ≡ keeper.old.table_id) × (keeper.new.me ≡ (keeper_of keeper.old.me.0, [])) }
    ensures left { (result.table_id ≡ keeper.old.table_id)
        × (result.me ≡ (passed keeper.old.me.0, keeper.old.me.1)) }
{
    let next = leave(seats, keeper);
    mem::replace(keeper, next)
}

// A receipt of what the keeper keeps.
fn receipt_by<B: Room>(seats: &Seats, keeper: &mut Place) -> Pass<B>
    requires seat { (keeper.old.table_id ≡ seats.now.table_id) × (0 < seats.now.table_id.words) }
    requires table { seats.now.table_id ≡ B.table }
    requires keeps { (keeper.old.me.0.keeps ≡ true) × (keeper.old.me.0.drawn ≡ []) × (keeper.old.me.1 ≡ []) }
    requires ordered { Ascends 0 keeper.old.me.0.own (length keeper.old.me.0.seen) }
    ensures keeper { (keeper.new.table_id ≡ keeper.old.table_id) × (keeper.new.me ≡ (keeper_of keeper.old.me.0, [])) }
    ensures receipt { result.seen ≡ keeper.old.me.0.seen }
{
    let seat = renew(seats, keeper);
    Pass {
        number: 0,
        seat,
        next: 0,
        of: PhantomData,
    }
}
