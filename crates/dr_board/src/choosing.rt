// What is handed out next.
ghost use Rattle.std.specs.Prelude.{◌≡◌, ◌+◌, ◌≤◌, ◌^◌, length};
ghost use Rattle.dr_dispatch.specs.Choice.{or_else};
ghost use Rattle.dr_board.specs.Tablets.{late_hand, chosen_hand};
ghost use Rattle.dr_board.specs.Shown.{AreAnswered};

use crate::looks::Looks;
use crate::tablet::Tablet;
use dr_dispatch::Hand;

// The hand, or, where there is none, that of the tablet if its last hand-out lies far back.
fn or_late(hand: Option<Hand>, tablet: &Tablet, number: u32, lag: u64, count: u64) -> Option<Hand>
    ensures { result ≡ or_else hand (late_hand lag count number tablet.now) }
{
    match hand {
        Some(hand) => Some(hand),
        None => tablet.late(number, lag, count),
    }
}

// The first place from `start` on whose tablet wasn't answered, where all tablets before `start` were.
pub(crate) fn past_answered(tablets: &[Tablet], start: usize) -> usize
    requires { AreAnswered start tablets.now }
    ensures { AreAnswered result tablets.now }
{
    let mut place = start;
    'tablets: while place < tablets.len() {
        if !tablets[place].is_answered() {
            return place;
        }
        place += 1;
    }
    place
}

// The choice after `count` events, where all tablets before `start` were answered. It looks at the others in their
// order, each once, until one is urgent.
pub(crate) fn choose(
    tablets: &[Tablet],
    start: usize,
    lag: u64,
    count: u64,
    looks: &mut Looks,
) -> Option<Hand>
    requires few { length tablets.now ≤ 2 ^ 32 }
    requires answered { AreAnswered start tablets.now }
    ensures hand { result ≡ chosen_hand lag count tablets.now }
    ensures looks { looks.new ≤ looks.old + length tablets.now }
    ensures never_falls { looks.old ≤ looks.new }
{
    let mut late = None;
    'tablets: for place in start..tablets.len() {
        looks.add();
        let tablet = &tablets[place];
        if let Some(hand) = tablet.urgent(place as u32) {
            return Some(hand);
        }
        late = or_late(late, tablet, place as u32, lag, count);
    }
    late
}
