//! Packed runs of one group of eight values each, which follow one another.

ghost use Rattle.std.specs.Prelude.{◌≡◌, ◌≤◌, ◌<◌, ◌+◌, ◌-◌, ◌*◌, ◌^◌, ◌++◌, ◌∷◌, ℕ, List, length, take, drop, option_map, IfSome};
ghost use Rattle.dr_formats.specs.LittleEndian.{little_endian};
ghost use Rattle.dr_formats.specs.Hybrid.{hybrid};

use crate::packable::Packable;
use crate::unpacking::group_of;

/// The header of a packed run of one group.
const ONE_GROUP: u64 = 3;

/// The greatest width of which a group and its header fit a word.
pub(crate) const GREATEST_SINGLE: u32 = 7;

/// The bytes behind the header of a packed run of one group; none where the bytes begin with no such run, or are fewer
/// than eight.
#[inline(always)]
fn single_group(bytes: &[u8]) -> Option<u64>
    ensures { IfSome result (λ word. (rest : List ℕ) × (bytes.now ≡ 3 ∷ rest) × (7 ≤ length rest)
        × (word ≡ little_endian (take 7 rest))) }
{
    match bytes.first_chunk::<8>() {
        Some(word) => {
            let word = u64::from_le_bytes(*word);
            if word % 256 == ONE_GROUP {
                Some(word / 256)
            } else {
                None
            }
        }
        None => None,
    }
}

/// Reads the runs of one group with which bytes begin, as many as follow one another and there is room for; one among
/// the last eight bytes may be left. Answers how many.
#[inline(always)]
fn unpack_single_groups<T: Packable>(bytes: &[u8], width: u32, mask: u64, out: &mut [T]) -> usize
    requires narrow { width ≤ 7 }
    requires low { mask ≡ 2 ^ width - 1 }
    requires held { mask < 2 ^ T.greatest_width }
    ensures room { 8 * result ≤ length out.old }
    ensures within { result * (width + 1) ≤ length bytes.now }
    ensures read { (n : ℕ) → hybrid width (8 * result + n) bytes.now
        ≡ option_map (λ more. take (8 * result) (T.numbers out.new) ++ more)
        (hybrid width n (drop (result * (width + 1)) bytes.now)) }
{
    let mut groups = 0;
    let mut place = 0;
    'runs: while groups < out.len() / 8 {
        let Some(word) = single_group(&bytes[place..]) else {
            return groups;
        };
        let group = group_of(word, width, mask);
        out[8 * groups..8 * groups + 8].copy_from_slice(&group);
        place += width as usize + 1;
        groups += 1;
    }
    groups
}

/// The same of a width without its mask. The widths of most levels are known where the loop is compiled, which then
/// shifts by constants.
#[inline(always)]
pub(crate) fn unpack_single_runs<T: Packable>(bytes: &[u8], width: u32, out: &mut [T]) -> usize
    requires narrow { width ≤ 7 }
    requires held { width ≤ T.greatest_width }
    ensures room { 8 * result ≤ length out.old }
    ensures within { result * (width + 1) ≤ length bytes.now }
    ensures read { (n : ℕ) → hybrid width (8 * result + n) bytes.now
        ≡ option_map (λ more. take (8 * result) (T.numbers out.new) ++ more)
        (hybrid width n (drop (result * (width + 1)) bytes.now)) }
{
    match width {
        1 => unpack_single_groups(bytes, 1, 0b1, out),
        2 => unpack_single_groups(bytes, 2, 0b11, out),
        3 => unpack_single_groups(bytes, 3, 0b111, out),
        _ => unpack_single_groups(bytes, width, (1u64 << width) - 1, out),
    }
}
