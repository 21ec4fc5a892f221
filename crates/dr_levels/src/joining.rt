//! Levels that join others.

ghost use Rattle.std.specs.Prelude.{◌≡◌, ◌≤◌, ◌+◌, ◌/◌, ◌++◌, List, length, map, replicate};
ghost use Rattle.std.specs.Vec.{vec_len, vec_capacity};
ghost use Rattle.dr_levels.specs.declared.triplet.Levels.{Levels as MeantLevels};
ghost use Rattle.dr_levels.specs.Apart.{definitions};
ghost use Rattle.dr_levels.specs.Dense.{present};
ghost use Rattle.dr_levels.specs.Columns.{Adds};

use crate::apart::{PIECE, put_both};
use crate::triplet::Levels;
use dr_nested::NoMemory;

/// Appends levels for which there is room.
pub fn join_levels(levels: &mut Vec<Levels>, more: &[Levels])
    requires { vec_len levels.old + length more.now ≤ vec_capacity levels.old }
    ensures { levels.new.items ≡ levels.old.items ++ more.now }
{
    match levels.extend_from_slice(more) {
        Ok(()) => {}
        Err(_) => unreachable!(),
    }
}

/// Appends levels.
///
/// Errors: want of memory alone. Nothing has changed then.
pub fn append_levels(levels: &mut Vec<Levels>, more: &[Levels]) -> Result<(), NoMemory>
    ensures { Adds levels.old.items levels.new.items more.now result }
{
    levels.extend_from_slice(more)?;
    Ok(())
}

/// Appends the same levels so many times.
///
/// Errors: want of memory alone. Nothing has changed then.
pub fn repeat_levels(levels: &mut Vec<Levels>, same: Levels, count: usize) -> Result<(), NoMemory>
    ensures { Adds levels.old.items levels.new.items (replicate count same) result }
{
    match levels.len().checked_add(count) {
        Some(length) => levels.resize(length, same)?,
        None => return Err(NoMemory),
    }
    Ok(())
}

/// How many levels are looked at one by one.
const NEAR: usize = 16;

/// How many of a few places have a value, where this is the leaf's greatest definition level. All are looked at, many
/// at once.
#[inline(always)]
fn count_both(greatest: u8, both: &[u16]) -> u8
    requires { length both.now ≤ 224 }
    ensures count { (ls : List MeantLevels) → definitions ls ≡ map (λ n. n / 256) both.now
        → result ≡ present greatest ls }
    ensures within { result ≤ length both.now }
{
    let mut count = 0u8;
    'levels: for at in 0..both.len() {
        count += u8::from(both[at] / 256 == u16::from(greatest));
    }
    count
}

/// The same of a few levels that aren't put into numbers yet.
fn count_piece(greatest: u8, levels: &[Levels]) -> usize
    requires { length levels.now ≤ 224 }
    ensures count { result ≡ present greatest levels.now }
    ensures within { result ≤ length levels.now }
{
    let mut room = [0u16; PIECE];
    let both = &mut room[..levels.len()];
    put_both(levels, both);
    usize::from(count_both(greatest, both))
}

/// The same, one by one.
fn count_near(greatest: u8, levels: &[Levels]) -> usize
    ensures count { result ≡ present greatest levels.now }
    ensures within { result ≤ length levels.now }
{
    let mut count = 0;
    'levels: for at in 0..levels.len() {
        count += usize::from(levels[at].definition == greatest);
    }
    count
}

/// How many places have a value, where this is the leaf's greatest definition level.
pub fn count_present(greatest: u8, levels: &[Levels]) -> usize
    ensures { result ≡ present greatest levels.now }
{
    let mut count = 0;
    let mut rest = levels;
    'pieces: while rest.len() > PIECE {
        let (piece, others) = rest.split_at(PIECE);
        count += count_piece(greatest, piece);
        rest = others;
    }
    if rest.len() < NEAR {
        count + count_near(greatest, rest)
    } else {
        count + count_piece(greatest, rest)
    }
}
