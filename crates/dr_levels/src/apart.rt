//! A few levels, those of each kind by themselves.

ghost use Rattle.std.specs.Prelude.{◌≡◌, ◌%◌, ◌/◌, length, map};
ghost use Rattle.dr_levels.specs.Apart.{definitions, repetitions};

use crate::triplet::Levels;

/// As many levels are looked at at once: a byte counts them, and they fill whole vectors of a processor.
pub const PIECE: usize = 224;

/// Puts both levels of each place into one number. So many are moved at once.
#[inline(always)]
pub fn put_both(levels: &[Levels], both: &mut [u16])
    requires { length both.old ≡ length levels.now }
    ensures repetitions { map (λ n. n % 256) both.new ≡ repetitions levels.now }
    ensures definitions { map (λ n. n / 256) both.new ≡ definitions levels.now }
{
    'levels: for at in 0..both.len() {
        let repetition = levels[at].repetition;
        let definition = levels[at].definition;
        both[at] = u16::from(repetition) + u16::from(definition) * 256;
    }
}

/// Puts the levels of each kind by themselves.
#[inline(always)]
pub fn part(both: &[u16], repetitions: &mut [u8], definitions: &mut [u8])
    requires repetitions { length repetitions.old ≡ length both.now }
    requires definitions { length definitions.old ≡ length both.now }
    ensures repetitions { repetitions.new ≡ map (λ n. n % 256) both.now }
    ensures definitions { definitions.new ≡ map (λ n. n / 256) both.now }
{
    'levels: for at in 0..both.len() {
        repetitions[at] = (both[at] % 256) as u8;
        definitions[at] = (both[at] / 256) as u8;
    }
}
