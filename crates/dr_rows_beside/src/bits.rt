//! Bits of a condition: one for each triplet of its last leaf, and one for each instance at a smaller depth.

ghost use Rattle.std.specs.Prelude.{◌≡◌, ◌≤◌, ◌+◌, ◌++◌, length, take, replicate, if◌then◌else◌, vec_len, vec_capacity};
ghost use Rattle.std.specs.Prelude.{true, false, IfOk};
ghost use Rattle.dr_beside.specs.Spreading.{next_of, rest_of, spread_over};
ghost use Rattle.dr_agreement.specs.Cuts.{begins};
ghost use Rattle.dr_levels.specs.Apart.{repetitions};
ghost use Rattle.dr_rows_beside.specs.Bits.{many, each_and, gathered, set_bits};

use dr_levels::Levels;
use dr_memory::NoMemory;

/// Takes the answers of a test whose rows are those of a leaf's triplets up to a depth.
pub(crate) fn narrow(levels: &[Levels], depth: u8, answers: &[bool], bits: &mut [bool])
    requires begins { begins (repetitions levels.now) ≡ true }
    requires as_many { many depth (repetitions levels.now) ≤ length answers.now }
    requires bits { length bits.old ≡ length levels.now }
    ensures { bits.new ≡ each_and bits.old (spread_over depth false answers.now (repetitions levels.now)) }
{
    let mut count = 0;
    'levels: for at in 0..levels.len() {
        count += usize::from(levels[at].repetition <= depth);
        bits[at] = bits[at] & answers[count - 1];
    }
}

/// Puts, of each instance at a depth, whether one of its bits is set.
///
/// Errors: want of memory alone.
pub(crate) fn gather(
    levels: &[Levels],
    depth: u8,
    bits: &[bool],
    out: &mut Vec<bool>,
) -> Result<(), NoMemory>
    requires begins { begins (repetitions levels.now) ≡ true }
    requires bits { length bits.now ≡ length levels.now }
    ensures { IfOk result (λ done. (out.new).items ≡ gathered depth (repetitions levels.now) bits.now) }
{
    out.clear();
    out.resize(levels.len(), false)?;
    let count = gather_into(levels, depth, bits, out.as_mut_slice());
    out.truncate(count);
    Ok(())
}

/// Puts them into the first places of a room, and answers how many they are.
fn gather_into(levels: &[Levels], depth: u8, bits: &[bool], room: &mut [bool]) -> usize
    requires begins { begins (repetitions levels.now) ≡ true }
    requires bits { length bits.now ≡ length levels.now }
    requires room { room.old ≡ replicate (length levels.now) false }
    ensures within { result ≤ length levels.now }
    ensures bits { take result room.new ≡ gathered depth (repetitions levels.now) bits.now }
{
    let mut count = 0;
    'levels: for at in 0..levels.len() {
        count += usize::from(levels[at].repetition <= depth);
        room[count - 1] = room[count - 1] | bits[at];
    }
    count
}

/// The bit of a place, where that of the place before it is this one, and the bits of the instances behind it. One that
/// begins an instance has the next bit; where none comes, the one before.
#[inline(always)]
fn next_bit<'b>(begins: bool, now: bool, bits: &'b [bool]) -> (bool, &'b [bool])
    ensures bit { result.0 ≡ (if begins then next_of now bits.now else now) }
    ensures rest { (result.1).now ≡ (if begins then rest_of bits.now else bits.now) }
{
    if !begins {
        return (now, bits);
    }
    match bits {
        [] => (now, bits),
        [first, rest @ ..] => (*first, rest),
    }
}

/// Appends, of each place of a leaf, the bit of the instance at a depth in which it is.
fn push_spread(levels: &[Levels], depth: u8, bits: &[bool], out: &mut Vec<bool>)
    requires { vec_len out.old + length levels.now ≤ vec_capacity out.old }
    ensures { (out.new).items
        ≡ (out.old).items ++ spread_over depth false bits.now (repetitions levels.now) }
{
    let mut now = false;
    let mut rest = bits;
    'levels: for level in levels {
        let (bit, others) = next_bit(level.repetition <= depth, now, rest);
        now = bit;
        rest = others;
        out.push_reserved(now);
    }
}

/// Puts, of each place of a leaf, the bit of the instance at a depth in which it is.
///
/// Errors: want of memory alone.
pub(crate) fn spread(
    levels: &[Levels],
    depth: u8,
    bits: &[bool],
    out: &mut Vec<bool>,
) -> Result<(), NoMemory>
    ensures { IfOk result (λ done. (out.new).items ≡ spread_over depth false bits.now (repetitions levels.now)) }
{
    out.clear();
    out.reserve(levels.len())?;
    push_spread(levels, depth, bits, out);
    Ok(())
}

/// How many bits are set.
pub fn count_set(bits: &[bool]) -> usize
    ensures { result ≡ set_bits bits.now }
{
    let mut count = 0;
    'bits: for bit in bits {
        count += usize::from(*bit);
    }
    count
}
