ghost use Rattle.std.specs.Prelude.{◌≡◌, ◌≤◌, ◌^◌, ℕ, [], true, length, IfOk};

use dr_desk::{
    Board, Closing, Desk, Event, Ground, Hand, Job, Naming, NoMemory, Pass, Piece, Room, Told,
};
use dr_outside::Cause;
use std::alloc::Global;
use std::marker::Brand;
use std::process::Abort;
use std::sync::Wait;
use std::sync::atomic::{AtomicBool, AtomicU64, Ordering};
use std::test::Fail;
use std::thread;
use std::thread::Threads;

// A piece that says which leaf it came from, and who read it.
#[derive(Clone, Copy, Debug, PartialEq, Eq)]
struct Read {
    from: Hand,
    by: usize,
}

impl Piece for Read {
    ghost tablet_of = { λ r. r.from.tablet };

    fn tablet(&self) -> u32 {
        self.from.tablet
    }
}

// Where two threads meet, each in its first read.
#[derive(Drop)]
struct Meeting {
    first: AtomicBool,
    second: AtomicBool,
    late: AtomicU64,
}

const MOST_TURNS: u64 = 1_000_000_000;

// A lag that isn't reached.
const NEVER: u64 = 1_000_000;

const MOST_READS: usize = 64;

impl Meeting {
    fn new() -> Meeting {
        Meeting {
            first: AtomicBool::new(false),
            second: AtomicBool::new(false),
            late: AtomicU64::new(0),
        }
    }

    // Waits until the other thread has come too.
    fn come(&self, by: usize) {
        let (mine, other) = if by == 0 {
            (&self.first, &self.second)
        } else {
            (&self.second, &self.first)
        };
        mine.store(true, Ordering::SeqCst);
        for _ in 0..MOST_TURNS {
            if other.load(Ordering::SeqCst) {
                return;
            }
        }
        self.late.fetch_add(1, Ordering::SeqCst);
    }
}

// Takes and answers until nothing is left.
fn work<N: Naming<Read>, B: Room, R: Wait>(
    rt: &R,
    desk: &Desk<Read, N, B>,
    meeting: &Meeting,
    by: usize,
    pass: &mut Pass<B>,
)
    requires { (t : ℕ) (r : Read) → N.is_true t r }
{
    for _ in 0..MOST_READS {
        let Some(hand) = desk.take(rt, pass) else {
            return;
        };
        meeting.come(by);
        let _ = desk.answer(rt, pass, hand, Read { from: hand, by });
    }
}

fn work_in_two_threads<
    N: Naming<Read> + Send + Sync,
    B: Room + Send + Sync,
    R: Threads + Wait + Abort + Sync,
>(rt: &R, desk: &Desk<Read, N, B>, passes: &mut [Pass<B>])
    requires { (t : ℕ) (r : Read) → N.is_true t r }
{
    let meeting = Meeting::new();
    let shared = &meeting;
    thread::for_each_mut(
        rt,
        passes,
        2,
        &|by: usize, pass: &mut Pass<B>|
            requires { (t : ℕ) (r : Read) → N.is_true t r }
        { work(rt, desk, shared, by, pass) },
    );
    assert_eq!(rt; meeting.late.load(Ordering::SeqCst), 0);
}

#[derive(Clone, Copy, PartialEq, Eq)]
enum Course {
    Answered,
    Failed,
    Drawn,
    TwoThreads,
}

const CAUSE: Cause = Cause::ReadFailed {
    before: 0,
    after: 1,
};

// The first pass takes and answers; the second is given nothing.
fn answered<N: Naming<Read>, B: Room, R: Wait + Abort>(
    rt: &R,
    desk: &Desk<Read, N, B>,
    first: &mut Pass<B>,
    second: &mut Pass<B>,
)
    requires { (t : ℕ) (r : Read) → N.is_true t r }
{
    let Some(hand) = desk.take(rt, first) else {
        panic!(rt; "nothing is given");
    };
    assert_eq!(rt; hand, Hand { tablet: 0, leaf: 0 });
    let piece = Read { from: hand, by: 0 };
    assert_eq!(rt; piece.tablet(), 0);
    assert_eq!(rt; desk.answer(rt, first, hand, piece), Told::Kept);
    assert_eq!(rt; desk.take(rt, second), None);
    assert!(rt; !desk.fault(rt, second, hand, CAUSE));
}

// The first pass takes and fails; only then the second is given the tablet's other leaf.
fn failed<N: Naming<Read>, B: Room, R: Wait + Abort>(
    rt: &R,
    desk: &Desk<Read, N, B>,
    first: &mut Pass<B>,
    second: &mut Pass<B>,
)
    requires { (t : ℕ) (r : Read) → N.is_true t r }
{
    let Some(hand) = desk.take(rt, first) else {
        panic!(rt; "nothing is given");
    };
    assert_eq!(rt; desk.take(rt, second), None);
    assert!(rt; desk.fault(rt, first, hand, CAUSE));
    let Some(other) = desk.take(rt, second) else {
        panic!(rt; "nothing is given");
    };
    assert_eq!(rt; other, Hand { tablet: 0, leaf: 1 });
    let piece = Read { from: other, by: 1 };
    assert_eq!(rt; desk.answer(rt, second, other, piece), Told::Kept);
    assert_eq!(rt; desk.answer(rt, second, other, piece), Told::Spare(piece));
}

// The pass draws a tablet in each take, so that after a fault it is given the next tablet, and only at the end the
// failed one's other leaf.
fn drawn<N: Naming<Read>, B: Room, R: Wait + Abort>(
    rt: &R,
    desk: &Desk<Read, N, B>,
    pass: &mut Pass<B>,
)
    requires { (t : ℕ) (r : Read) → N.is_true t r }
{
    let Some(hand) = desk.take(rt, pass) else {
        panic!(rt; "nothing is given");
    };
    assert_eq!(rt; hand, Hand { tablet: 0, leaf: 0 });
    assert!(rt; desk.fault(rt, pass, hand, CAUSE));
    assert_eq!(rt; desk.take(rt, pass), Some(Hand { tablet: 1, leaf: 0 }));
    assert_eq!(rt; desk.take(rt, pass), Some(Hand { tablet: 2, leaf: 0 }));
    assert_eq!(rt; desk.take(rt, pass), Some(Hand { tablet: 0, leaf: 1 }));
    assert_eq!(rt; desk.take(rt, pass), None);
}

// On a desk of one pass.
fn alone<N: Naming<Read>, B: Room, R: Wait + Abort>(
    rt: &R,
    alloc: Global,
    ground: Ground,
    board: Board<Read, N>,
) -> Result<Closing<Read>, NoMemory>
    requires ground { ground.table ≡ B.table }
    requires tablets { ground.tablets ≡ length N.job.leaves }
    requires board { board.history ≡ [] }
    requires truth { (t : ℕ) (r : Read) → N.is_true t r }
{
    let (desk, mut passes) = Desk::<Read, N, B>::new(alloc, ground, board, 1)?;
    drawn(rt, &desk, &mut passes.as_mut_slice()[0]);
    Ok(desk.shut(passes))
}

fn run<N: Naming<Read> + Send + Sync, B: Room + Send + Sync, R: Threads + Wait + Abort + Sync>(
    rt: &R,
    alloc: Global,
    ground: Ground,
    job: Job,
    course: Course,
) -> Result<Closing<Read>, NoMemory>
    requires ground { ground.table ≡ B.table }
    requires drawn { ground.tablets ≡ length job.leaves }
    requires job { job ≡ N.job }
    requires tablets { length job.leaves ≤ 2 ^ 32 }
    requires truth { (t : ℕ) (r : Read) → N.is_true t r }
{
    let board: Board<Read, N> = Board::new(alloc, &job)?;
    if course == Course::Drawn {
        return alone::<N, B, R>(rt, alloc, ground, board);
    }
    let (desk, mut passes) = Desk::<Read, N, B>::new(alloc, ground, board, 2)?;
    if course == Course::TwoThreads {
        work_in_two_threads(rt, &desk, passes.as_mut_slice());
        return Ok(desk.shut(passes));
    }
    let (first, second) = passes.as_mut_slice().split_at_mut(1);
    if course == Course::Answered {
        answered(rt, &desk, &mut first[0], &mut second[0]);
    } else {
        failed(rt, &desk, &mut first[0], &mut second[0]);
    }
    Ok(desk.shut(passes))
}

// A lag that isn't reached in a course of two threads, nor where a pass draws tablets.
fn lag_of(course: Course) -> u64 {
    match course {
        Course::Answered | Course::Failed => 1,
        Course::Drawn => 5,
        Course::TwoThreads => NEVER,
    }
}

fn follow<R: Threads + Wait + Abort + Sync>(
    rt: &R,
    alloc: Global,
    tablets: usize,
    course: Course,
) -> Result<Closing<Read>, NoMemory>
    requires { tablets ≤ 2 ^ 32 }
{
    let ground = Ground::new(alloc, tablets)?;
    let job = job(alloc, tablets, lag_of(course))?;
    run::<Brand, Brand, R>(rt, alloc, ground, job, course)
}

// So many tablets, each on the leaves 0 and 1.
fn job(alloc: Global, tablets: usize, lag: u64) -> Result<Job, NoMemory>
    ensures { IfOk result (λ j. length j.leaves ≡ tablets) }
{
    let mut leaves = Vec::new(alloc);
    for _ in 0..tablets {
        leaves.push([0, 1].to_vec(alloc)?)?;
    }
    Ok(Job { leaves, lag })
}

#[test]
fn passes_take_turns(rt: HostRuntime) -> Result<(), Fail> {
    let alloc = rt.alloc();
    let first = Hand { tablet: 0, leaf: 0 };
    let second = Hand { tablet: 0, leaf: 1 };
    let closing = follow(&rt, alloc, 1, Course::Answered)?;
    let history = [Event::Give(first), Event::Answer(first)];
    assert_eq!(rt; closing.history.as_slice(), history.as_slice());
    assert_eq!(rt;
        closing.pieces.as_slice(),
        [Read { from: first, by: 0 }].as_slice()
    );
    let closing = follow(&rt, alloc, 1, Course::Failed)?;
    let history = [
        Event::Give(first),
        Event::Fault(first, CAUSE),
        Event::Give(second),
        Event::Answer(second),
    ];
    assert_eq!(rt; closing.history.as_slice(), history.as_slice());
    assert_eq!(rt;
        closing.pieces.as_slice(),
        [Read {
            from: second,
            by: 1
        }]
        .as_slice()
    );
    Ok(())
}

#[test]
fn a_pass_draws_a_tablet_in_each_take(rt: HostRuntime) -> Result<(), Fail> {
    let closing = follow(&rt, rt.alloc(), 3, Course::Drawn)?;
    assert_eq!(rt; closing.history.len(), 5);
    assert_eq!(rt; closing.pieces.len(), 0);
    Ok(())
}

#[test]
fn two_threads_take_and_answer_on_one_desk(rt: HostRuntime) -> Result<(), Fail> {
    let closing = follow(&rt, rt.alloc(), 8, Course::TwoThreads)?;
    assert_eq!(rt; closing.pieces.len(), 8);
    assert!(rt; closing.pieces.iter().any(|piece| piece.by == 0));
    assert!(rt; closing.pieces.iter().any(|piece| piece.by == 1));
    Ok(())
}
