//! Signed numbers as numbers that are not negative: 0, -1, 1, -2, 2, .. as 0, 1, 2, 3, 4, ..

ghost use Rattle.std.specs.Prelude.{◌≡◌};
ghost use Rattle.dr_formats.specs.Varint as varint;

/// The zigzag of a signed number.
pub fn zigzag(number: i64) -> u64
    ensures { result ≡ varint.zigzag number }
{
    if number < 0 {
        2 * (-(number + 1)) as u64 + 1
    } else {
        2 * number as u64
    }
}

/// The signed number of a zigzag.
pub fn from_zigzag(number: u64) -> i64
    ensures { result ≡ varint.from_zigzag number }
{
    let half = (number / 2) as i64;
    if number % 2 == 0 { half } else { -1 - half }
}
