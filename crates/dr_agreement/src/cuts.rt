//! Where records end in a column.

ghost use Rattle.std.specs.Prelude.{◌≡◌, ◌≤◌, ◌%◌, length, map, take, drop, true};
ghost use Rattle.dr_meaning.specs.OneColumn.{begins_record, starts as records_begun};
ghost use Rattle.dr_levels.specs.Apart.{repetitions};
ghost use Rattle.dr_levels.specs.Views.{triplets_view};
ghost use Rattle.dr_agreement.specs.Cuts.{begins, starts, IsCut};

use dr_levels::{Levels, PIECE, Triplets, put_both};

/// How many of a few levels begin a record. All are looked at, many at once.
#[inline(always)]
fn count_both(both: &[u16]) -> u8
    requires { length both.now ≤ 224 }
    ensures count { result ≡ starts (map (λ n. n % 256) both.now) }
    ensures within { result ≤ length both.now }
{
    let mut begun = 0u8;
    'levels: for at in 0..both.len() {
        begun += u8::from(both[at] % 256 == 0);
    }
    begun
}

/// How many records begin in a few levels.
fn count_piece(levels: &[Levels]) -> usize
    requires { length levels.now ≤ 224 }
    ensures count { result ≡ starts (repetitions levels.now) }
    ensures within { result ≤ length levels.now }
{
    let mut room = [0u16; PIECE];
    let both = &mut room[..levels.len()];
    put_both(levels, both);
    usize::from(count_both(both))
}

/// How many records begin in some levels.
pub(crate) fn count_begun(levels: &[Levels]) -> usize
    ensures { result ≡ starts (repetitions levels.now) }
{
    let mut begun = 0;
    let mut rest = levels;
    'pieces: while rest.len() > PIECE {
        let (piece, others) = rest.split_at(PIECE);
        begun += count_piece(piece);
        rest = others;
    }
    begun + count_piece(rest)
}

/// How many of some levels are those of the first so many records, by each level.
fn end_among(levels: &[Levels], records: usize) -> usize
    requires { records ≤ starts (repetitions levels.now) }
    ensures { IsCut (repetitions levels.now) result records }
{
    let mut begun = 0;
    'levels: for at in 0..levels.len() {
        begun += usize::from(levels[at].repetition == 0);
        if begun > records {
            return at;
        }
    }
    levels.len()
}

/// How many of some levels are those of the first so many records.
fn end_of(levels: &[Levels], records: usize) -> usize
    requires { records ≤ starts (repetitions levels.now) }
    ensures { IsCut (repetitions levels.now) result records }
{
    let mut left = records;
    let mut rest = levels;
    'pieces: while rest.len() > 0 {
        let (piece, others) = rest.split_at(rest.len().min(PIECE));
        let begun = count_piece(piece);
        if begun > left {
            break;
        }
        left -= begun;
        rest = others;
    }
    levels.len() - rest.len() + end_among(rest, left)
}

/// Whether the first of some levels, if there is one, begins a record.
pub(crate) fn begin_record(levels: &[Levels]) -> bool
    ensures { result ≡ begins (repetitions levels.now) }
{
    match levels {
        [] => true,
        [first, ..] => first.repetition == 0,
    }
}

/// How many records begin in some triplets.
pub fn count_records(triplets: Triplets<'_>) -> usize
    ensures { result ≡ records_begun (triplets_view triplets.entry) }
{
    count_begun(triplets.levels())
}

/// How many of some triplets are those of the first so many records.
pub fn length_of(triplets: Triplets<'_>, records: usize) -> usize
    requires { records ≤ records_begun (triplets_view triplets) }
    ensures within { result ≤ length (triplets_view triplets.entry) }
    ensures records { records_begun (take result (triplets_view triplets.entry)) ≡ records }
    ensures whole { begins_record (drop result (triplets_view triplets.entry)) ≡ true }
{
    end_of(triplets.levels(), records)
}
