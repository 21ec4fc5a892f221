//! Whole numbers of a query's text.

ghost use Rattle.std.specs.Prelude.{◌<◌, ◌^◌};

/// A whole number as a query's text writes it: at most 9223372036854775807.
#[derive(Clone, Copy, PartialEq, Eq)]
pub struct Numeral {
    pub value: u64,
    pub ghost small: { value < 2 ^ 63 },
}
