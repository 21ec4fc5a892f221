//! Levels of the parts of page bodies.

ghost use Rattle.std.specs.Prelude.{◌≡◌, ◌≤◌, nat_le};
ghost use Rattle.std.specs.List.{list_all};
ghost use Rattle.dr_formats.specs.Page as page;

/// The width of levels: the number of binary digits of the greatest.
pub(crate) fn level_width(greatest: u8) -> u32
    requires { greatest ≤ 32 }
    ensures width { result ≡ page.level_width greatest }
    ensures narrow { result ≤ 6 }
{
    let mut width = 0;
    let mut rest = greatest;
    'digits: while rest > 0 {
        width += 1;
        rest /= 2;
    }
    width
}

/// Whether no level is above the greatest. All are looked at, many at once.
pub(crate) fn none_above(greatest: u8, levels: &[u8]) -> bool
    ensures { result ≡ list_all (λ l. nat_le l greatest) levels.now }
{
    let mut most = 0u8;
    'levels: for level in levels {
        most = most.max(*level);
    }
    most <= greatest
}
