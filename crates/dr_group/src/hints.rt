//! Which group is looked at first for a key tuple.

ghost use Rattle.std.specs.Prelude.{◌≡◌, [], length, IfOk};

use dr_levels::ValueRef;
use dr_memory::NoMemory;
use std::alloc::Global;

/// How many places there are.
const PLACES: usize = 256;

/// By a place that a key tuple tells, the number of the group of this place that was found last. Any number will do:
/// the group's key tuple is compared.
#[derive(Drop)]
pub struct Hints {
    numbers: Vec<u32>,
}

impl Hints {
    /// None.
    pub(crate) fn new(alloc: Global) -> Hints
        ensures { (result.numbers).items ≡ [] }
    {
        Hints {
            numbers: Vec::new(alloc),
        }
    }

    /// The number at the place of a key tuple.
    #[inline(always)]
    pub(crate) fn find(&self, key: &[Option<ValueRef<'_>>]) -> usize {
        match self.numbers.get(place_of(key)) {
            Some(number) => *number as usize,
            None => 0,
        }
    }

    /// Puts a number at the place of a key tuple, where there is room for it.
    ///
    /// Errors: want of memory alone.
    pub(crate) fn put(
        &mut self,
        key: &[Option<ValueRef<'_>>],
        number: usize,
    ) -> Result<(), NoMemory>
        ensures { IfOk result (λ done. length ((self.new).numbers).items ≡ PLACES) }
    {
        self.numbers.resize(PLACES, 0)?;
        if let (Some(held), Ok(short)) = (
            self.numbers.get_mut(place_of(key)),
            u32::try_from(number),
        ) {
            *held = short;
        }
        Ok(())
    }
}

/// The place of a key tuple, by its first cell.
#[inline(always)]
fn place_of(key: &[Option<ValueRef<'_>>]) -> usize {
    match key {
        [Some(ValueRef::Text(text)), ..] => match text.as_bytes() {
            [] => 0,
            [first, .., last] => usize::from(first.wrapping_mul(31) ^ *last),
            [first] => usize::from(*first),
        },
        [Some(ValueRef::Int(number)), ..] => {
            let [low, ..] = number.to_le_bytes();
            usize::from(low)
        }
        [Some(ValueRef::Bool(truth)), ..] => usize::from(*truth),
        [None, ..] | [] => 2,
    }
}
