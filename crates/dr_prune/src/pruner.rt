//! The pruner.

ghost use Rattle.std.specs.Prelude.{◌≡◌, ◌≤◌, ◌<◌, ◌+◌, length};

use crate::answers::Answers;
use crate::counts::Counts;
use dr_levels::{Kept, Move};
use dr_memory::NoMemory;
use std::alloc::Global;

/// Along the moves of a walk it tells of each open branch whether a condition keeps it: a branch off the condition's
/// chain is kept, one on the chain is kept where a row in it is true. The rows are the triplets of the condition's last
/// leaf.
#[derive(Drop)]
pub struct Pruner {
    chain: Vec<u32>,
    last: u32,
    counts: Counts,
    ghost few: { length chain.items ≤ 32 },
    ghost fits: { counts.along ≤ length chain.items + 1 },
}

impl Pruner {
    ghost use Rattle.std.specs.Prelude.{ℕ, ◌∷◌, [], ◌++◌, ◌==◌, ◌&&◌, ◌-◌, ◌^◌, Bool, true, drop, slice_get, reverse, IfOk, if◌then◌else◌};
    ghost use Rattle.dr_levels.specs.Views.{move_view};
    ghost use Rattle.dr_moves.specs.Context.{Context};
    ghost use Rattle.dr_meaning.specs.Walk as meant;
    ghost use Rattle.dr_kept_laws.specs.Telling.{told};
    ghost use Rattle.dr_kept_laws.specs.Counting.{no_numbers, is_first, count_row, count_left, count_move, verdicts_of, left_among};
    ghost use Rattle.dr_prune.specs.PartAnswers.{lasts_of, told_in_parts, HasPruned, OverPruned};
    ghost use Rattle.dr_prune.specs.Pruning.{numbers_of, watch_of, open_in, verdicts_in, HasSeen, IsAnswer, verdicts_at, numbers_told, OverSeen};

    /// A pruner before any move, for the condition whose chain has these repeated fields, outermost first, each by its
    /// number in the schema, without the record's 0, and whose last leaf to be read is the one at this place of the
    /// selection.
    ///
    /// Errors: want of memory alone.
    pub fn new(alloc: Global, chain: &[u32], last: u32) -> Result<Pruner, NoMemory>
        requires { length chain.now ≤ 32 }
        ensures numbers { IfOk result (λ p. numbers_of p ≡ no_numbers) }
        ensures watches { IfOk result (λ p. (t : Context → Bool) → watch_of t p ≡ record {
          chain = chain.now;
          last = last;
          test = t;
        }) }
    {
        let mut numbers = Vec::new(alloc);
        numbers.extend_from_slice(chain)?;
        Ok(Pruner {
            chain: numbers,
            last,
            counts: Counts::new(),
        })
    }

    /// How many branches are open.
    #[inline(always)]
    pub fn open(&self) -> u32
        ensures { result ≡ open_in self.now }
    {
        self.counts.depth
    }

    /// The chain's length, with the record.
    #[inline(always)]
    fn long(&self) -> u32
        ensures { result ≡ length (0 ∷ self.now.chain.items) }
    {
        self.chain.len() as u32 + 1
    }

    /// Whether a field is the next of the chain in the innermost branch.
    #[inline(always)]
    fn goes_on(&self, number: u32) -> bool
        ensures first { result ≡ ((self.now.counts.along == self.now.counts.depth) && is_first number (drop
            self.now.counts.along (0 ∷ self.now.chain.items))) }
        ensures within { result ≡ true → self.now.counts.along ≤ length self.now.chain.items }
    {
        self.counts.along == self.counts.depth && self.next() == Some(number)
    }

    /// The chain's next number, none at its end.
    #[inline(always)]
    fn next(&self) -> Option<u32>
        ensures { result ≡ slice_get (drop self.now.counts.along (0 ∷ self.now.chain.items)) 0 }
    {
        if self.counts.along == 0 {
            return Some(0);
        }
        self.chain.get(self.counts.along as usize - 1).copied()
    }

    /// Into the record or an instance.
    #[inline(always)]
    fn enter(&mut self, number: u32) -> Kept
        requires { open_in self.old < 2 ^ 32 - 1 }
        ensures counts { (t : Context → Bool) (c : Context) → numbers_of self.new ≡ count_move (watch_of t
            self.old) c (meant.enter number) (numbers_of self.old) }
        ensures tells { (n : ℕ) → verdicts_in n result ≡ reverse (verdicts_of (length (0 ∷ self.old.chain.items))
            (numbers_of self.new) n) }
        ensures chain { self.new.chain ≡ self.old.chain }
        ensures last { self.new.last ≡ self.old.last }
    {
        self.counts = self.counts.entered(self.goes_on(number));
        self.counts.known(self.long())
    }

    /// A triplet of a leaf, and whether the condition is true in its row, where it is the last leaf.
    #[inline(always)]
    fn read(&mut self, leaf: u32, is_true: bool) -> Kept
        ensures counts { numbers_of self.new ≡ (if leaf == self.old.last then count_row is_true (numbers_of
            self.old) else numbers_of self.old) }
        ensures tells { (n : ℕ) → verdicts_in n result ≡ reverse (verdicts_of (length (0 ∷ self.old.chain.items))
            (numbers_of self.new) n) }
        ensures chain { self.new.chain ≡ self.old.chain }
        ensures last { self.new.last ≡ self.old.last }
    {
        if leaf == self.last {
            self.counts = self.counts.with_row(is_true);
        }
        self.counts.known(self.long())
    }

    /// Out of the innermost branch.
    #[inline(always)]
    fn leave(&mut self) -> Kept
        ensures counts { numbers_of self.new ≡ count_left (self.old.counts.along == self.old.counts.depth)
            (numbers_of self.old) }
        ensures tells { verdicts_in (open_in self.old) result ≡ reverse (left_among (length (0 ∷
            self.old.chain.items)) (numbers_of self.old) (open_in self.old)) }
        ensures chain { self.new.chain ≡ self.old.chain }
        ensures last { self.new.last ≡ self.old.last }
    {
        let kept = self.counts.known_at_leave(self.long());
        self.counts = self.counts.left();
        kept
    }

    /// The next move of the walk, and whether the condition is true in the row that it reads; where it reads none, the
    /// answer is not looked at. What it tells is of the branches that are open behind the move, and of the one that it
    /// leaves.
    #[inline(always)]
    pub fn step(&mut self, m: &Move<'_>, is_true: bool) -> Kept
        requires { open_in self.old < 2 ^ 32 - 1 }
        // The numbers count the move, by each test whose answer this is.
        ensures counts { (t : Context → Bool) (c : Context) → IsAnswer (watch_of t self.old) c (move_view m.now) is_true
            → numbers_of self.new ≡ count_move (watch_of t self.old) c (move_view m.now) (numbers_of self.old) }
        // What it tells is what the numbers tell.
        ensures tells { (t : Context → Bool) (c : Context) → IsAnswer (watch_of t self.old) c (move_view m.now) is_true
            → verdicts_at self.old (move_view m.now) result ≡ numbers_told t c self.old (move_view m.now) }
        // Behind the moves that it has seen it is what is told of their branches.
        ensures told { OverSeen self.old (move_view m.now) is_true (λ t ms.
            verdicts_at self.old (move_view m.now) result ≡ told (watch_of t self.old) ms (move_view m.now)) }
        ensures seen { OverSeen self.old (move_view m.now) is_true (λ t ms.
            HasSeen t (ms ++ move_view m.now ∷ []) self.new) }
        // It goes on to watch the same condition.
        ensures watches { (t : Context → Bool) → watch_of t self.new ≡ watch_of t self.old }
    {
        match m {
            Move::Enter(number) => self.enter(*number),
            Move::Leaf(leaf, _) => self.read(*leaf, is_true),
            Move::Leave(_) => self.leave(),
        }
    }

    /// The next move of the walk, where these are the answers of the condition's parts behind it: the row that it reads
    /// is true where all of them are.
    #[inline(always)]
    pub fn step_with(&mut self, m: &Move<'_>, answers: &Answers) -> Kept
        requires { open_in self.old < 2 ^ 32 - 1 }
        // Behind the moves that it and the answers have seen, what it tells is what a pruner in parts tells.
        ensures tells { OverPruned self.old answers.now (move_view m.now) (λ s t ms.
            verdicts_at self.old (move_view m.now) result
            ≡ told_in_parts s t answers.now ms self.old (move_view m.now)) }
        ensures pruned { OverPruned self.old answers.now (move_view m.now) (λ s t ms.
            HasPruned s t (lasts_of answers.now) (ms ++ move_view m.now ∷ []) self.new) }
        // It goes on to watch the same condition.
        ensures watches { (s : Context → Bool) → watch_of s self.new ≡ watch_of s self.old }
    {
        self.step(m, answers.all())
    }
}
