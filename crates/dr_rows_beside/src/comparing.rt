//! Numbers beside a literal.

ghost use Rattle.std.specs.Prelude.{◌≡◌, ◌≤◌, ◌+◌, ◌++◌, [], length, map, take, vec_len, vec_capacity};
ghost use Rattle.dr_levels.specs.Dense.{present};
ghost use Rattle.dr_levels.specs.Lent.{lent_values, present_values};
ghost use Rattle.dr_levels.specs.Views.{triplets_view};
ghost use Rattle.dr_meaning.specs.Record.{int_value};
ghost use Rattle.dr_rows_beside.specs.Comparing.{stands, placed, stands_at};

use dr_levels::{Levels, Triplets};
use dr_plan::Comparison;

/// Puts whether each number stands so to a literal.
fn put_each(numbers: &[i64], comparison: Comparison, literal: i64, out: &mut Vec<bool>)
    requires { vec_len out.old + length numbers.now ≤ vec_capacity out.old }
    ensures items { (out.new).items ≡ (out.old).items ++ map (stands comparison literal) numbers.now }
    ensures room { vec_capacity out.new ≡ vec_capacity out.old }
{
    match comparison {
        Comparison::Equal => {
            'equal: for number in numbers {
                out.push_reserved(*number == literal);
            }
        }
        Comparison::Unequal => {
            'unequal: for number in numbers {
                out.push_reserved(*number != literal);
            }
        }
        Comparison::Less => {
            'less: for number in numbers {
                out.push_reserved(*number < literal);
            }
        }
        Comparison::AtMost => {
            'at_most: for number in numbers {
                out.push_reserved(*number <= literal);
            }
        }
        Comparison::Greater => {
            'greater: for number in numbers {
                out.push_reserved(*number > literal);
            }
        }
        Comparison::AtLeast => {
            'at_least: for number in numbers {
                out.push_reserved(*number >= literal);
            }
        }
    }
}

/// Moves the bits of the places that have a value to their places, from the last one on.
fn place_back(levels: &[Levels], greatest: u8, count: usize, room: &mut [bool])
    requires count { count ≡ present greatest levels.now }
    requires room { length room.old ≡ length levels.now }
    ensures { room.new ≡ placed greatest levels.now (take count room.old) }
{
    let mut from = count;
    let mut to = levels.len();
    'places: while to > from {
        to -= 1;
        let there = levels[to].definition == greatest;
        from -= usize::from(there);
        room[to] = there & room[from];
    }
}

/// Puts whether each triplet's number stands so to a literal: false where it has none.
pub(crate) fn put_compared(
    column: Triplets<'_>,
    numbers: &[i64],
    comparison: Comparison,
    literal: i64,
    out: &mut Vec<bool>,
)
    requires empty { (out.old).items ≡ [] }
    requires room { length (triplets_view column) ≤ vec_capacity out.old }
    requires numbers { map int_value numbers.now ≡ present_values (triplets_view column) }
    ensures { (out.new).items ≡ map (stands_at comparison literal) (triplets_view column.entry) }
{
    let levels = column.levels();
    put_each(numbers, comparison, literal, out);
    'places: while out.len() < levels.len() {
        out.push_reserved(false);
    }
    place_back(
        levels,
        column.greatest_definition(),
        numbers.len(),
        out.as_mut_slice(),
    );
}
