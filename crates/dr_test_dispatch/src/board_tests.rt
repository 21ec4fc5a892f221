ghost use Rattle.std.specs.Prelude.{◌≡◌, ◌≤◌, ◌^◌, ℕ, length, IfOk};

use dr_board::{Board, Closing, Event, Hand, Job, Looks, Naming, NoMemory, Piece, Told, replay};
use dr_outside::Cause;
use std::alloc::Global;
use std::marker::Brand;
use std::process::Abort;
use std::test::Fail;

// A piece that says which leaf it came from.
#[derive(Clone, Copy, Debug, PartialEq, Eq)]
struct Read {
    from: Hand,
}

impl Piece for Read {
    ghost tablet_of = { λ r. r.from.tablet };

    fn tablet(&self) -> u32 {
        self.from.tablet
    }
}

// A call of a board, and what it has to answer.
#[derive(Clone, Copy)]
enum Call {
    ChooseGives(Option<Hand>, u64),
    TakeGives(Hand),
    TakeGivesNone,
    FreshGives(Hand),
    FreshGivesNone(u32),
    AnswerIsKept(Hand),
    AnswerIsSpare(Hand),
    FaultIs(Hand, bool),
}

const CAUSE: Cause = Cause::ReadFailed {
    before: 0,
    after: 1,
};

fn hand(tablet: u32, leaf: u32) -> Hand {
    Hand { tablet, leaf }
}

fn make<N: Naming<Read>>(rt: &impl Abort, board: &mut Board<Read, N>, call: Call)
    requires { (t : ℕ) (r : Read) → N.is_true t r }
{
    match call {
        Call::ChooseGives(hand, count) => {
            let mut looks = Looks::new();
            assert_eq!(rt; board.choose(&mut looks), hand);
            assert_eq!(rt; looks.count(), count);
        }
        Call::TakeGives(hand) => assert_eq!(rt; board.take(), Some(hand)),
        Call::TakeGivesNone => assert_eq!(rt; board.take(), None),
        Call::FreshGives(hand) => assert_eq!(rt; board.fresh(hand.tablet), Some(hand)),
        Call::FreshGivesNone(tablet) => assert_eq!(rt; board.fresh(tablet), None),
        Call::AnswerIsKept(hand) => assert_eq!(rt; answer(rt, board, hand), Told::Kept),
        Call::AnswerIsSpare(hand) => {
            assert_eq!(rt; answer(rt, board, hand), Told::Spare(Read { from: hand }));
        }
        Call::FaultIs(hand, recorded) => assert_eq!(rt; board.fault(hand, CAUSE), recorded),
    }
}

fn answer<N: Naming<Read>>(rt: &impl Abort, board: &mut Board<Read, N>, hand: Hand) -> Told<Read>
    requires { (t : ℕ) (r : Read) → N.is_true t r }
{
    assert!(rt; board.was_given(hand));
    let piece = Read { from: hand };
    assert_eq!(rt; piece.tablet(), hand.tablet);
    board.answer(hand, piece)
}

// Makes the calls on a new board, and closes it.
fn run<N: Naming<Read>>(
    rt: &impl Abort,
    alloc: Global,
    job: &Job,
    calls: &[Call],
) -> Result<Closing<Read>, NoMemory>
    requires job { job.now ≡ N.job }
    requires tablets { length job.now.leaves ≤ 2 ^ 32 }
    requires truth { (t : ℕ) (r : Read) → N.is_true t r }
{
    let mut board: Board<Read, N> = Board::new(alloc, job)?;
    for call in calls {
        make(rt, &mut board, *call);
    }
    assert!(rt; board.len() < 64);
    Ok(board.close())
}

fn follow(
    rt: &impl Abort,
    alloc: Global,
    job: &Job,
    calls: &[Call],
) -> Result<Closing<Read>, NoMemory>
    requires { length job.now.leaves ≤ 2 ^ 32 }
{
    run::<Brand>(rt, alloc, job, calls)
}

fn job_of_one(alloc: Global, leaves: &[u32], lag: u64) -> Result<Job, NoMemory>
    ensures { IfOk result (λ j. length j.leaves ≡ 1) }
{
    let mut all = Vec::new(alloc);
    all.push(leaves.to_vec(alloc)?)?;
    Ok(Job { leaves: all, lag })
}

fn job_of_two(alloc: Global, first: &[u32], second: &[u32], lag: u64) -> Result<Job, NoMemory>
    ensures { IfOk result (λ j. length j.leaves ≡ 2) }
{
    let mut all = Vec::new(alloc);
    all.push(first.to_vec(alloc)?)?;
    all.push(second.to_vec(alloc)?)?;
    Ok(Job { leaves: all, lag })
}

#[test]
fn a_failed_tablet_is_handed_out_on_its_second_leaf(rt: HostRuntime) -> Result<(), Fail> {
    let alloc = rt.alloc();
    let calls = [
        Call::TakeGives(hand(0, 0)),
        Call::TakeGivesNone,
        Call::FaultIs(hand(0, 0), true),
        Call::FaultIs(hand(0, 0), false),
        Call::TakeGives(hand(0, 1)),
        Call::AnswerIsKept(hand(0, 1)),
        Call::AnswerIsSpare(hand(0, 1)),
        Call::AnswerIsSpare(hand(0, 0)),
        Call::FaultIs(hand(0, 1), false),
        Call::TakeGivesNone,
    ];
    let closing = follow(&rt, alloc, &job_of_one(alloc, &[0, 1], 1)?, &calls)?;
    let history = [
        Event::Give(hand(0, 0)),
        Event::Fault(hand(0, 0), CAUSE),
        Event::Give(hand(0, 1)),
        Event::Answer(hand(0, 1)),
    ];
    assert_eq!(rt; closing.history.as_slice(), history.as_slice());
    assert_eq!(rt;
        closing.pieces.as_slice(),
        [Read { from: hand(0, 1) }].as_slice()
    );
    Ok(())
}

#[test]
fn a_late_tablet_is_handed_out_again_when_the_lag_is_reached(rt: HostRuntime) -> Result<(), Fail> {
    let alloc = rt.alloc();
    let calls = [
        Call::FaultIs(hand(1, 1), false),
        Call::TakeGives(hand(0, 0)),
        Call::TakeGives(hand(1, 1)),
        Call::TakeGivesNone,
        Call::AnswerIsKept(hand(1, 1)),
        Call::TakeGives(hand(0, 1)),
        Call::TakeGivesNone,
        Call::AnswerIsKept(hand(0, 0)),
        Call::AnswerIsSpare(hand(0, 1)),
        Call::FaultIs(hand(0, 1), false),
        Call::TakeGivesNone,
    ];
    let closing = follow(&rt, alloc, &job_of_two(alloc, &[0, 1], &[1, 0], 2)?, &calls)?;
    let pieces = [Read { from: hand(1, 1) }, Read { from: hand(0, 0) }];
    assert_eq!(rt; closing.history.len(), 5);
    assert_eq!(rt; closing.pieces.as_slice(), pieces.as_slice());
    let single = [
        Call::TakeGives(hand(0, 7)),
        Call::AnswerIsKept(hand(0, 7)),
        Call::TakeGivesNone,
    ];
    let closing = follow(&rt, alloc, &job_of_one(alloc, &[7], 9)?, &single)?;
    assert_eq!(rt; closing.pieces.len(), 1);
    Ok(())
}

#[test]
fn a_choice_looks_at_each_tablet_once(rt: HostRuntime) -> Result<(), Fail> {
    let alloc = rt.alloc();
    let calls = [
        Call::ChooseGives(Some(hand(0, 0)), 1),
        Call::ChooseGives(Some(hand(0, 0)), 1),
        Call::TakeGives(hand(0, 0)),
        Call::ChooseGives(Some(hand(1, 1)), 2),
        Call::TakeGives(hand(1, 1)),
        Call::ChooseGives(None, 2),
        Call::AnswerIsKept(hand(1, 1)),
        Call::ChooseGives(Some(hand(0, 1)), 2),
    ];
    let closing = follow(&rt, alloc, &job_of_two(alloc, &[0, 1], &[1, 0], 2)?, &calls)?;
    assert_eq!(rt; closing.history.len(), 3);
    Ok(())
}

#[test]
fn a_tablet_is_fresh_until_it_is_handed_out(rt: HostRuntime) -> Result<(), Fail> {
    let alloc = rt.alloc();
    let calls = [
        Call::FreshGives(hand(1, 1)),
        Call::FreshGivesNone(1),
        Call::FaultIs(hand(1, 1), true),
        Call::FreshGivesNone(1),
        Call::TakeGives(hand(0, 0)),
        Call::FreshGivesNone(0),
        Call::FreshGivesNone(2),
        Call::TakeGives(hand(1, 0)),
    ];
    let closing = follow(&rt, alloc, &job_of_two(alloc, &[0, 1], &[1, 0], 9)?, &calls)?;
    let history = [
        Event::Give(hand(1, 1)),
        Event::Fault(hand(1, 1), CAUSE),
        Event::Give(hand(0, 0)),
        Event::Give(hand(1, 0)),
    ];
    assert_eq!(rt; closing.history.as_slice(), history.as_slice());
    let closing = follow(
        &rt,
        alloc,
        &job_of_one(alloc, &[], 1)?,
        &[Call::FreshGivesNone(0)],
    )?;
    assert_eq!(rt; closing.history.len(), 0);
    Ok(())
}

#[test]
fn a_list_of_events_is_replayed(rt: HostRuntime) -> Result<(), Fail> {
    let alloc = rt.alloc();
    let job = job_of_one(alloc, &[0, 1], 1)?;
    let events = [
        Event::Give(hand(0, 0)),
        Event::Give(hand(0, 0)),
        Event::Give(hand(0, 2)),
        Event::Give(hand(1, 0)),
        Event::Answer(hand(0, 0)),
        Event::Answer(hand(0, 0)),
        Event::Fault(hand(0, 0), CAUSE),
    ];
    let history = [Event::Give(hand(0, 0)), Event::Answer(hand(0, 0))];
    let mut state = replay(alloc, &job, &events)?;
    assert_eq!(rt; state.history(), history.as_slice());
    assert_eq!(rt; state.len(), 2);
    assert!(rt; state.was_given(hand(0, 0)));
    assert!(rt; !state.was_given(hand(0, 1)));
    assert_eq!(rt; state.take(), None);
    assert!(rt; !state.record(Event::Give(hand(0, 1))));
    assert_eq!(rt; state.into_history().as_slice(), history.as_slice());
    Ok(())
}
