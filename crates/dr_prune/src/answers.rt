//! The answers of a condition's parts.

ghost use Rattle.std.specs.Prelude.{◌≡◌, ◌<◌, ◌+◌, ℕ, List, [], Bool, true, false, Some, length, slice_get, IfOk};
ghost use Rattle.std.specs.List.{list_all};
ghost use Rattle.dr_moves.specs.Context.{Context};
ghost use Rattle.dr_kept_laws.specs.Parts.{Part, all_answers};
ghost use Rattle.dr_prune.specs.declared.answers.Answer.{Answer};
ghost use Rattle.dr_prune.specs.PartAnswers.{lasts_of, parts_of, tested_to, HasAnswered, TestsPart};

use dr_memory::NoMemory;
use std::alloc::Global;

/// A part of a condition: the leaf that is the last to be read of it, and whether it was true where that was read last.
#[derive(Clone, Copy, PartialEq, Eq)]
struct Answer {
    last: u32,
    is_true: bool,
}

/// The answers of the parts of a condition, all of which are to be true. A part is tested wherever the last of its own
/// leaves is read, and its answer holds until that leaf is read again; before it is read, the answer is false.
#[derive(Drop)]
pub struct Answers {
    parts: Vec<Answer>,
}

impl Answers {
    /// The answers before any move, of parts of which these are the last leaves, each by its place in the selection.
    ///
    /// Errors: want of memory alone.
    pub fn new(alloc: Global, lasts: &[u32]) -> Result<Answers, NoMemory>
        ensures lasts { IfOk result (λ a. lasts_of a ≡ lasts.now) }
        ensures begins { IfOk result (λ a. (t : ℕ → Context → Bool) → HasAnswered t [] a) }
    {
        let mut parts = Vec::with_capacity(alloc, lasts.len())?;
        'lasts: for last in lasts {
            parts.push(Answer {
                last: *last,
                is_true: false,
            })?;
        }
        Ok(Answers { parts })
    }

    /// Whether a part, by its number, is tested where this leaf is read.
    #[inline(always)]
    pub fn is_tested_at(&self, part: usize, leaf: u32) -> bool
        requires { part < length (lasts_of self.now) }
        ensures here { result ≡ true → slice_get (lasts_of self.now) part ≡ Some leaf }
        // Where it isn't, its answer stays.
        ensures stays { result ≡ false → (t : ℕ → Context → Bool) (c : Context) (ps : List Part)
            → parts_of t self.now ≡ tested_to part leaf c ps → parts_of t self.now ≡ tested_to (part + 1) leaf c ps }
    {
        leaf == self.parts[part].last
    }

    /// A part, by its number, was tested.
    #[inline(always)]
    pub fn set(&mut self, part: usize, is_true: bool)
        requires { part < length (lasts_of self.old) }
        ensures lasts { lasts_of self.new ≡ lasts_of self.old }
        // Where its last leaf is read and the parts before it were tested, it is the next.
        ensures tested { TestsPart part is_true self.old self.new }
    {
        self.parts[part].is_true = is_true;
    }

    /// Whether all parts are true by their answers.
    #[inline(always)]
    pub fn all(&self) -> bool
        ensures { (t : ℕ → Context → Bool) → result ≡ all_answers (parts_of t self.now) }
    {
        are_true(&self.parts)
    }
}

/// Whether all answers are true.
#[inline(always)]
fn are_true(parts: &[Answer]) -> bool
    ensures { result ≡ list_all (λ (x : Answer). x.is_true) parts.now }
{
    parts.iter().all(|part| part.is_true)
}
