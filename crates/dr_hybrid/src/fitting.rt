//! Whether values are of a width.

ghost use Rattle.std.specs.Prelude.{◌≡◌, ◌≤◌, ◌^◌, nat_lt};
ghost use Rattle.std.specs.List.{list_all};

use crate::packable::Packable;

/// Whether each value is of a width of at most 32 bits.
pub fn are_of_width<T: Packable>(values: &[T], width: u32) -> bool
    requires { width ≤ 32 }
    ensures { result ≡ list_all (λ v. nat_lt v (2 ^ width)) (T.numbers values.now) }
{
    let bound = 1u64 << width;
    'values: for value in values {
        if u64::from(value.widened()) >= bound {
            return false;
        }
    }
    true
}
