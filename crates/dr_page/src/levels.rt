//! Levels side by side.

ghost use Rattle.std.specs.Prelude.{◌≡◌, ◌≤◌, length, OnOk};
ghost use Rattle.dr_formats.specs.Page.{count_equal};
ghost use Rattle.dr_page.specs.Parts.{PairsOf};

use dr_levels::Levels;
use dr_memory::NoMemory;

/// As many levels are counted in one byte.
const PIECE: usize = 255;

/// How many of a few levels are this one. All are looked at, many at once.
fn count_piece(level: u8, levels: &[u8]) -> u8
    requires { length levels.now ≤ 255 }
    ensures count { result ≡ count_equal level levels.now }
    ensures within { result ≤ length levels.now }
{
    let mut count = 0u8;
    'levels: for index in 0..levels.len() {
        count += u8::from(levels[index] == level);
    }
    count
}

/// How many levels are this one.
pub(crate) fn count_equal(level: u8, levels: &[u8]) -> usize
    ensures { result ≡ count_equal level levels.now }
{
    let mut count = 0;
    let mut rest = levels;
    'pieces: while rest.len() > PIECE {
        let (piece, others) = rest.split_at(PIECE);
        count += usize::from(count_piece(level, piece));
        rest = others;
    }
    count + usize::from(count_piece(level, rest))
}

/// Puts pairs of levels into the place of others.
pub(crate) fn pair_levels(
    repetitions: &[u8],
    definitions: &[u8],
    out: &mut Vec<Levels>,
) -> Result<(), NoMemory>
    requires { length repetitions.now ≡ length definitions.now }
    ensures { OnOk result (PairsOf repetitions.now definitions.now (out.new).items) }
{
    let none = Levels {
        repetition: 0,
        definition: 0,
    };
    out.resize(repetitions.len(), none)?;
    fill_pairs(repetitions, definitions, out);
    Ok(())
}

/// Puts pairs of levels into the place of others, as many.
#[inline(always)]
fn fill_pairs(repetitions: &[u8], definitions: &[u8], out: &mut [Levels])
    requires repetitions { length out.old ≡ length repetitions.now }
    requires definitions { length out.old ≡ length definitions.now }
    ensures { PairsOf repetitions.now definitions.now out.new }
{
    'pairs: for index in 0..out.len() {
        out[index] = Levels {
            repetition: repetitions[index],
            definition: definitions[index],
        };
    }
}
