//! Texts.

ghost use Rattle.std.specs.Prelude.{◌≡◌, ◌≤◌, ◌↔◌, length, take, drop, ◌-◌, OnOk, OnErr, IfOk, IfErr, IfSome, IsTrue};
ghost use Rattle.std.specs.Str.{IsUtf8};
ghost use Rattle.dr_meaning.specs.Schema.{text_kind};
ghost use Rattle.dr_formats.specs.Plain.{plain, plain_values, plain_text};
ghost use Rattle.dr_formats.specs.Reading.{got};
ghost use Rattle.dr_meaning.specs.Record.{text_value};
ghost use Rattle.dr_bytes.specs.Cutting.{whole, left};
ghost use Rattle.dr_plain.specs.FrontTexts.{AreFrontTexts, Skips};
ghost use Rattle.dr_plain.specs.Views.{Appends, IsFaultOf, BeginsWith, AreTexts, IsText, text_values, text_at};

use crate::values::{PlainFault, TextPlace};
use dr_bytes::Cut;

/// Appends the places of the texts with which bytes begin, each behind its length in four bytes.
///
/// Errors: the bytes end before, or a text is not UTF-8, whichever comes first; want of memory. The places are then as
/// they were.
pub fn append_texts(bytes: &[u8], count: usize, out: &mut Vec<TextPlace>) -> Result<(), PlainFault>
    ensures read { OnOk result (Appends (plain_values text_kind count bytes.now) (text_values bytes.now (out.old).items)
        (text_values bytes.now (out.new).items)) }
    ensures texts { OnOk result (AreTexts bytes.now (out.old).items → AreTexts bytes.now (out.new).items) }
    ensures fault { IfErr result (λ e. IsFaultOf e (plain text_kind count bytes.now)) }
    ensures stays { OnErr result ((out.new).items ≡ (out.old).items) }
{
    let start = out.len();
    let read = push_texts(bytes, count, out);
    if read.is_err() {
        out.truncate(start);
    }
    read
}

/// Appends the places, as far as there are texts.
fn push_texts(bytes: &[u8], count: usize, out: &mut Vec<TextPlace>) -> Result<(), PlainFault>
    ensures read { OnOk result (Appends (plain_values text_kind count bytes.now) (text_values bytes.now (out.old).items)
        (text_values bytes.now (out.new).items)) }
    ensures texts { OnOk result (AreTexts bytes.now (out.old).items → AreTexts bytes.now (out.new).items) }
    ensures fault { IfErr result (λ e. IsFaultOf e (plain text_kind count bytes.now)) }
    ensures begins { BeginsWith (out.old).items (out.new).items }
{
    let all = str::from_utf8(bytes).ok();
    let mut cut = Cut::new(bytes);
    'texts: for _ in 0..count {
        let place = next_text(bytes, all, &mut cut)?;
        if out.push(place).is_err() {
            return Err(PlainFault::NoMemory);
        }
    }
    Ok(())
}

/// The bytes of the first so many texts, each behind its length; all bytes where there are fewer.
pub(crate) fn front_texts(bytes: &[u8], count: usize) -> &[u8]
    ensures { AreFrontTexts count bytes.now result.now }
{
    let mut cut = Cut::new(bytes);
    'texts: for _ in 0..count {
        if !skip_text(&mut cut) {
            return bytes;
        }
    }
    &bytes[..cut.place()]
}

/// Goes on behind the next text, whatever its bytes are, and answers whether there is one.
#[inline(always)]
fn skip_text(cut: &mut Cut<'_>) -> bool
    ensures skipped { Skips (left cut.old) (left cut.new) result }
    ensures same { whole cut.new ≡ whole cut.old }
{
    match cut.le32() {
        Ok(length) => cut.take(length as usize).is_ok(),
        Err(_) => false,
    }
}

/// The place of the next text of bytes, which are a text as a whole or not.
#[inline(always)]
fn next_text(bytes: &[u8], all: Option<&str>, cut: &mut Cut<'_>) -> Result<TextPlace, PlainFault>
    requires same { whole cut.old ≡ bytes.now }
    requires all { IfSome all (λ t. t.now ≡ bytes.now) }
    requires utf8 { IfSome all (λ t. IsUtf8 bytes.now) }
    ensures read { IfOk result (λ p. plain_text (left cut.old)
        ≡ got (text_value (text_at bytes.now p)) (left cut.new)) }
    ensures text { IfOk result (λ p. IsText bytes.now p) }
    ensures fault { IfErr result (λ e. IsFaultOf e (plain_text (left cut.old))) }
    ensures same { whole cut.new ≡ bytes.now }
{
    let Ok(length) = cut.le32() else {
        return Err(PlainFault::Short);
    };
    let start = cut.place();
    let length = length as usize;
    let Ok(_) = cut.take(length) else {
        return Err(PlainFault::Short);
    };
    if is_text(bytes, all, start, start + length) {
        Ok(TextPlace { start, length })
    } else {
        Err(PlainFault::BadText)
    }
}

/// Whether a part of bytes is UTF-8: where all of them are, a part at whose ends characters begin is.
#[inline(always)]
fn is_text(bytes: &[u8], all: Option<&str>, start: usize, end: usize) -> bool
    requires order { start ≤ end }
    requires within { end ≤ length bytes.now }
    requires all { IfSome all (λ t. t.now ≡ bytes.now) }
    requires utf8 { IfSome all (λ t. IsUtf8 bytes.now) }
    ensures { IsTrue result ↔ IsUtf8 (take (end - start) (drop start bytes.now)) }
{
    if let Some(text) = all {
        if text.is_char_boundary(start) && text.is_char_boundary(end) {
            return true;
        }
    }
    str::from_utf8(&bytes[start..end]).is_ok()
}
