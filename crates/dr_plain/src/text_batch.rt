//! Texts that are read many at once.

ghost use Rattle.std.specs.Prelude.{◌≡◌, ◌≤◌, ◌+◌, [], ℕ, List, length, map, drop, IfSome, true};
ghost use Rattle.std.specs.Str.{IsAscii, IsUtf8};
ghost use Rattle.dr_formats.specs.Reading.{got};
ghost use Rattle.dr_formats.specs.Plain.{repeatedly, plain_text};
ghost use Rattle.dr_bytes.specs.Cutting.{whole, left};
ghost use Rattle.dr_plain.specs.FrontTexts.{text_bytes, AreWithin};
ghost use Rattle.dr_plain.specs.Views.{AreTexts, IsText, text_values, text_at};

use crate::values::TextPlace;
use dr_bytes::Cut;

/// Puts the places of the first so many texts of bytes into the place of none, and answers the bytes of these texts
/// alone, each behind its length. None says only that they aren't read so: one isn't there, or isn't UTF-8, or not
/// beside its neighbours, or memory is wanted.
pub(crate) fn read_batch<'a>(
    bytes: &'a [u8],
    count: usize,
    out: &mut Vec<TextPlace>,
) -> Option<&'a [u8]>
    requires { (out.old).items ≡ [] }
    ensures read { IfSome result (λ piece. repeatedly plain_text count bytes.now
        ≡ got (text_values piece.now (out.new).items) (drop (length piece.now) bytes.now)) }
    ensures texts { IfSome result (λ piece. AreTexts piece.now (out.new).items) }
    ensures count { IfSome result (λ piece. length (out.new).items ≡ count) }
    ensures within { IfSome result (λ piece. length piece.now ≤ length bytes.now) }
{
    if count > bytes.len() / 4 {
        return None;
    }
    let none = TextPlace {
        start: 0,
        length: 0,
    };
    if out.resize(count, none).is_err() {
        return None;
    }
    fill_batch(bytes, out)
}

/// The same into the place of others, of as many texts.
#[inline]
fn fill_batch<'a>(bytes: &'a [u8], out: &mut [TextPlace]) -> Option<&'a [u8]>
    ensures read { IfSome result (λ piece. repeatedly plain_text (length out.old) bytes.now
        ≡ got (text_values piece.now out.new) (drop (length piece.now) bytes.now)) }
    ensures texts { IfSome result (λ piece. AreTexts piece.now out.new) }
    ensures within { IfSome result (λ piece. length piece.now ≤ length bytes.now) }
{
    let Some(end) = put_places(bytes, out) else {
        return None;
    };
    let piece = &bytes[..end];
    if are_ascii(piece) {
        return Some(piece);
    }
    match str::from_utf8(piece) {
        Ok(all) if are_texts(all, out) => Some(piece),
        _ => None,
    }
}

/// Puts the places of the texts with which bytes begin into the place of others, as many, whatever the texts' bytes
/// are. Answers where the last one ends; none where there are fewer.
#[inline]
fn put_places(bytes: &[u8], out: &mut [TextPlace]) -> Option<usize>
    ensures found { IfSome result (λ end. repeatedly text_bytes (length out.old) bytes.now
        ≡ got (map (text_at bytes.now) out.new) (drop end bytes.now)) }
    ensures places { IfSome result (λ end. AreWithin end out.new) }
    ensures within { IfSome result (λ end. end ≤ length bytes.now) }
{
    let mut cut = Cut::new(bytes);
    'texts: for index in 0..out.len() {
        let Some(place) = find_text(&mut cut) else {
            return None;
        };
        out[index] = place;
    }
    Some(cut.place())
}

/// The place of the next text, whatever its bytes are; none where the bytes end before.
#[inline(always)]
fn find_text(cut: &mut Cut<'_>) -> Option<TextPlace>
    ensures found { IfSome result (λ p. text_bytes (left cut.old) ≡ got (text_at (whole cut.old) p) (left cut.new)) }
    ensures ends { IfSome result (λ p. p.start + p.length + length (left cut.new) ≡ length (whole cut.old)) }
    ensures shorter { length (left cut.new) ≤ length (left cut.old) }
    ensures same { whole cut.new ≡ whole cut.old }
{
    let Ok(length) = cut.le32() else {
        return None;
    };
    let start = cut.place();
    let length = length as usize;
    match cut.take(length) {
        Ok(_) => Some(TextPlace { start, length }),
        Err(_) => None,
    }
}

/// Whether all bytes are ASCII. All are looked at, many at once.
#[inline]
fn are_ascii(bytes: &[u8]) -> bool
    ensures { result ≡ true → IsAscii bytes.now }
{
    let mut ascii = true;
    'bytes: for index in 0..bytes.len() {
        ascii = ascii & (bytes[index] < 128);
    }
    ascii
}

/// Whether each part of a text at these places is a text. All are looked at.
#[inline]
fn are_texts(all: &str, places: &[TextPlace]) -> bool
    requires within { AreWithin (length all.now) places.now }
    requires utf8 { IsUtf8 all.now }
    ensures { result ≡ true → AreTexts all.now places.now }
{
    let mut fits = true;
    'places: for index in 0..places.len() {
        fits = fits & is_between_characters(all, places[index]);
    }
    fits
}

/// Whether characters begin at both ends of a part of a text, which is then a text.
#[inline(always)]
fn is_between_characters(all: &str, place: TextPlace) -> bool
    requires within { place.start + place.length ≤ length all.now }
    requires utf8 { IsUtf8 all.now }
    ensures { result ≡ true → IsText all.now place }
{
    all.is_char_boundary(place.start) & all.is_char_boundary(place.start + place.length)
}
