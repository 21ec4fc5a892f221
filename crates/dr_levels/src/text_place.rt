//! Places of texts in a buffer.

ghost use Rattle.std.specs.Prelude.{◌<◌, ◌≤◌, ℕ, length, map, get_or};
ghost use Rattle.dr_levels.specs.declared.text_place.TextPlace.{TextPlace as MeantPlace};
ghost use Rattle.dr_levels.specs.Texts.{moved};
ghost use Rattle.dr_levels.specs.Columns.{Adds};

use dr_nested::NoMemory;

/// A text by its place in a buffer: where it begins, and how many bytes it has.
#[derive(Clone, Copy, PartialEq, Eq)]
pub struct TextPlace {
    pub start: u32,
    pub length: u32,
}

/// The greatest place at which one of some texts begins; 0 where there are none.
fn last_start(places: &[TextPlace]) -> u32
    ensures { (k : ℕ) (p : MeantPlace) → k < length places.now → (get_or places.now k p).start ≤ result }
{
    let mut last = 0;
    'places: for at in 0..places.len() {
        last = last.max(places[at].start);
    }
    last
}

/// Appends places, moved behind so many bytes.
///
/// Errors: want of memory, or of room. Nothing has changed then.
pub fn push_moved(
    places: &mut Vec<TextPlace>,
    behind: u32,
    more: &[TextPlace],
) -> Result<(), NoMemory>
    ensures { Adds places.old.items places.new.items (map (moved behind) more.now) result }
{
    if behind.checked_add(last_start(more)).is_none() {
        return Err(NoMemory);
    }
    places.reserve(more.len())?;
    'more: for at in 0..more.len() {
        let place = more[at];
        places.push_reserved(TextPlace {
            start: behind + place.start,
            length: place.length,
        });
    }
    Ok(())
}
