//! Strips: the triplets of a leaf in an instance of a group.

ghost use Rattle.std.specs.Prelude.{◌≡◌, ◌≤◌, ◌<◌, [], length, map, take, drop, IfOk, Vec};
ghost use Rattle.std.specs.declared.alloc.Global.{Global};
ghost use Rattle.dr_levels.specs.Views.{triplets_view};
ghost use Rattle.dr_assemble.specs.Pieces as pieces;
ghost use Rattle.dr_assemble.specs.Pieces.{repetition_of};
ghost use Rattle.dr_assemble.specs.Restoring as restoring;
ghost use Rattle.dr_assemble.specs.Views.{strip_view, strips_view};
ghost use Rattle.dr_assemble.specs.declared.strip.Strip as seen;

use dr_levels::{Levels, Triplets};
use dr_nested::Step;
use std::alloc::{AllocError, Global};

/// The triplets of a leaf in an instance of a group, and the rest of the leaf's path from that group.
#[derive(Clone, Copy)]
pub struct Strip<'a> {
    pub rest: &'a [Step],
    pub triplets: Triplets<'a>,
}

/// How many places there are up to the next one with a repetition level of at most this.
fn above_length(places: &[Levels], level: u32) -> usize
    ensures within { result ≤ length places.now }
    ensures count { result ≡ pieces.above_length level (map repetition_of places.now) }
{
    'places: for (count, place) in places.iter().enumerate() {
        if u32::from(place.repetition) <= level {
            return count;
        }
    }
    places.len()
}

/// How many triplets the first piece has: the first triplet, and those behind it with greater repetition levels than
/// this.
fn first_length(triplets: Triplets<'_>, level: u32) -> usize
    ensures within { result ≤ length (triplets_view triplets.entry) }
    ensures first { take result (triplets_view triplets.entry)
        ≡ restoring.first_piece level (triplets_view triplets.entry) }
    ensures later { drop result (triplets_view triplets.entry)
        ≡ restoring.later_pieces level (triplets_view triplets.entry) }
{
    match triplets.levels() {
        [] => 0,
        [_, rest @ ..] => 1 + above_length(rest, level),
    }
}

/// How many places have a repetition level of at most this.
fn count_below(places: &[Levels], level: u32) -> usize
    ensures within { result ≤ length places.now }
    ensures count { result ≡ pieces.below_count level (map repetition_of places.now) }
{
    let mut count = 0;
    'places: for place in places {
        if u32::from(place.repetition) <= level {
            count += 1;
        }
    }
    count
}

/// How many pieces there are, each begun by the first triplet or by a repetition level of at most this.
pub fn count_pieces(triplets: Triplets<'_>, level: u32) -> usize
    ensures { result ≡ restoring.count_pieces level (triplets_view triplets.entry) }
{
    match triplets.levels() {
        [] => 0,
        [_, rest @ ..] => 1 + count_below(rest, level),
    }
}

/// The strips, to be cut.
pub fn copied<'a>(alloc: Global, strips: &[Strip<'a>]) -> Result<Vec<Strip<'a>>, AllocError>
    ensures { IfOk result (λ v. v.items ≡ strips.now) }
{
    let mut copied = Vec::with_capacity(alloc, strips.len())?;
    copied.extend_from_slice(strips)?;
    Ok(copied)
}

/// Takes the first piece of each strip, and leaves what is behind it.
pub fn cut<'a>(left: &mut [Strip<'a>], first: &mut [Strip<'a>], level: u32)
    requires { length first.old ≡ length left.old }
    ensures first { strips_view first.new ≡ restoring.first_pieces level (strips_view left.old) }
    ensures others { strips_view left.new ≡ restoring.other_pieces level (strips_view left.old) }
{
    'strips: for place in 0..left.len() {
        let strip = left[place];
        let (piece, behind) = strip.triplets.split_at(first_length(strip.triplets, level));
        first[place] = Strip {
            rest: strip.rest,
            triplets: piece,
        };
        left[place] = Strip {
            rest: strip.rest,
            triplets: behind,
        };
    }
}

impl<'a> Strip<'a> {
    /// Whether it leads into the field at a place of its group.
    fn leads_into(&self, place: usize) -> bool
        ensures { result ≡ pieces.begins_at place (strip_view self.now).rest }
    {
        match self.rest {
            [] => false,
            [first, ..] => first.place == place,
        }
    }

    /// Without the step into the field.
    pub fn without_step(&self) -> Strip<'a>
        ensures { strip_view result ≡ restoring.without_step (strip_view self.now) }
    {
        match self.rest {
            [] => *self,
            [_, rest @ ..] => Strip {
                rest,
                triplets: self.triplets,
            },
        }
    }
}

/// How many strips at the front lead into the field at a place.
pub fn front_length(strips: &[Strip], place: usize) -> usize
    ensures within { result ≤ length strips.now }
    ensures front { map restoring.without_step (take result (strips_view strips.now))
        ≡ restoring.front_at place (strips_view strips.now) }
    ensures behind { drop result (strips_view strips.now) ≡ restoring.after_front place (strips_view strips.now) }
{
    'strips: for (count, strip) in strips.iter().enumerate() {
        if !strip.leads_into(place) {
            return count;
        }
    }
    strips.len()
}

/// The strips without their first steps.
pub fn without_steps<'a>(alloc: Global, strips: &[Strip<'a>]) -> Result<Vec<Strip<'a>>, AllocError>
    ensures { IfOk result (λ v. strips_view v.items ≡ map restoring.without_step (strips_view strips.now)) }
{
    let mut rests = Vec::with_capacity(alloc, strips.len())?;
    'strips: for strip in strips {
        rests.push(strip.without_step())?;
    }
    Ok(rests)
}
