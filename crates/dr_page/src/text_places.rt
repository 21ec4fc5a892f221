//! Places of texts, as columns have them.

ghost use Rattle.std.specs.Prelude.{◌≡◌, length, map, true, OnOk};
ghost use Rattle.dr_page.specs.Places.{column_place};

use dr_levels::TextPlace;
use dr_memory::NoMemory;

/// The greatest place that a column has.
const GREATEST_PLACE: usize = 4_294_967_295;

/// Puts places of texts into the place of others, as columns have them.
///
/// Errors: want of memory, or of room: texts that are read together lie within 4 GiB.
pub(crate) fn read_places(
    texts: &[dr_plain::TextPlace],
    out: &mut Vec<TextPlace>,
) -> Result<(), NoMemory>
    ensures { OnOk result ((out.new).items ≡ map column_place texts.now) }
{
    let none = TextPlace {
        start: 0,
        length: 0,
    };
    out.resize(texts.len(), none)?;
    if fill_places(texts, out) {
        Ok(())
    } else {
        Err(NoMemory)
    }
}

/// Puts places of texts into the place of others, as many, as columns have them; false where one isn't within 4 GiB.
/// All are looked at, many at once.
#[inline(always)]
fn fill_places(texts: &[dr_plain::TextPlace], out: &mut [TextPlace]) -> bool
    requires { length out.old ≡ length texts.now }
    ensures { result ≡ true → out.new ≡ map column_place texts.now }
{
    let mut near = true;
    'texts: for index in 0..out.len() {
        let text = texts[index];
        near = near & (text.start <= GREATEST_PLACE) & (text.length <= GREATEST_PLACE);
        out[index] = TextPlace {
            start: (text.start % 4_294_967_296) as u32,
            length: (text.length % 4_294_967_296) as u32,
        };
    }
    near
}
