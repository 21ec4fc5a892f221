//! The numbers of a pruner.

ghost use Rattle.std.specs.Prelude.{◌≡◌, ◌≤◌, ◌<◌};

use crate::masks::known_between;
use dr_levels::Kept;

/// How many branches are open; so many of them, the outermost, are on the condition's chain; so many of these, the
/// outermost, have a true row; and whether the innermost on the chain has a row.
#[derive(Clone, Copy, PartialEq, Eq)]
pub(crate) struct Counts {
    pub(crate) depth: u32,
    pub(crate) along: u32,
    pub(crate) hit: u32,
    pub(crate) read: bool,
    pub(crate) ghost hits: { hit ≤ along },
    pub(crate) ghost within: { along ≤ depth },
}

impl Counts {
    ghost use Rattle.std.specs.Prelude.{ℕ, ◌==◌, ◌&&◌, ◌+◌, ◌-◌, ◌^◌, max, true, false, reverse};
    ghost use Rattle.dr_kept_laws.specs.Counting.{no_numbers, count_entered, count_row, count_left, verdicts_of, left_among};
    ghost use Rattle.dr_prune.specs.Pruning.{count_view, verdicts_in};

    /// Where nothing is open.
    pub(crate) fn new() -> Counts
        ensures { count_view result ≡ no_numbers }
    {
        Counts {
            depth: 0,
            along: 0,
            hit: 0,
            read: false,
        }
    }

    /// In one more branch, which is the next of the chain or not.
    #[inline(always)]
    pub(crate) fn entered(self, on_chain: bool) -> Counts
        requires { self.depth < 2 ^ 32 - 1 }
        ensures { count_view result ≡ count_entered on_chain (count_view self) }
    {
        if on_chain {
            Counts {
                depth: self.depth + 1,
                along: self.along + 1,
                hit: self.hit,
                read: false,
            }
        } else {
            Counts {
                depth: self.depth + 1,
                along: self.along,
                hit: self.hit,
                read: self.read,
            }
        }
    }

    /// With one more row, true or not: a true one is a row of each open branch on the chain.
    #[inline(always)]
    pub(crate) fn with_row(self, is_true: bool) -> Counts
        ensures { count_view result ≡ count_row is_true (count_view self) }
    {
        Counts {
            depth: self.depth,
            along: self.along,
            hit: if is_true { self.along } else { self.hit },
            read: true,
        }
    }

    /// Out of the innermost branch.
    #[inline(always)]
    pub(crate) fn left(self) -> Counts
        ensures { count_view result ≡ count_left (self.along == self.depth) (count_view self) }
    {
        if self.along == self.depth {
            let along = self.along.saturating_sub(1);
            Counts {
                depth: along,
                along,
                hit: self.hit.min(along),
                read: false,
            }
        } else {
            Counts {
                depth: self.depth - 1,
                along: self.along,
                hit: self.hit,
                read: self.read,
            }
        }
    }

    /// Whether the chain's end is open and has a row, where the chain is so long, with the record.
    #[inline(always)]
    fn is_end_read(self, long: u32) -> bool
        ensures { result ≡ ((self.along == long) && self.read) }
    {
        self.along == long && self.read
    }

    /// Where those that are dropped begin, of the branches on the chain: the innermost of these is dropped where it is
    /// over and has no true row.
    #[inline(always)]
    fn first_dropped(self, is_over: bool) -> u32
        ensures over { is_over ≡ true → result ≡ max self.hit (self.along - 1) }
        ensures other { is_over ≡ false → result ≡ self.along }
        ensures hits { self.hit ≤ result }
        ensures within { result ≤ self.along }
    {
        if is_over {
            self.hit.max(self.along.saturating_sub(1))
        } else {
            self.along
        }
    }

    /// What is known of the open branches, where the chain is so long, with the record.
    #[inline(always)]
    pub(crate) fn known(self, long: u32) -> Kept
        requires fits { self.along ≤ long }
        requires few { long < 64 }
        ensures { (n : ℕ) → verdicts_in n result ≡ reverse (verdicts_of long (count_view self) n) }
    {
        let first = self.first_dropped(self.is_end_read(long));
        known_between(self.hit, first, self.along)
    }

    /// The same, and what is known of the innermost as it is left.
    #[inline(always)]
    pub(crate) fn known_at_leave(self, long: u32) -> Kept
        requires fits { self.along ≤ long }
        requires few { long < 64 }
        ensures { verdicts_in self.depth result ≡ reverse (left_among long (count_view self) self.depth) }
    {
        if self.along == self.depth {
            known_between(self.hit, self.first_dropped(true), self.along)
        } else {
            self.known(long)
        }
    }
}
