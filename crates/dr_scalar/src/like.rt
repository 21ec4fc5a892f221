//! LIKE: whether a text matches a pattern.

ghost use Rattle.std.specs.Prelude.{◌≡◌, ◌∷◌, [], MatchOption, chars};
ghost use Rattle.dr_meaning.specs.Expression.{matches, some_end};
ghost use Rattle.dr_scalar.specs.Reach.{reach, first_reach, literal_front, halt_view};

use memchr::memchr2;
use memchr::memmem::Finder;

/// How far a pattern leads in a text, up to its first `%`.
#[derive(Clone, Copy)]
enum Halt<'p, 't> {
    /// To its end, and to the text's.
    End,
    /// To a place where the text is another, or ends too soon or too late.
    Apart,
    /// To a `%`: the pattern behind it, and the text that is left.
    Percent(&'p str, &'t str),
}

/// Whether the whole text matches a pattern of LIKE. The time is at most the pattern's length times the text's.
pub(crate) fn is_like(pattern: &str, text: &str) -> bool
    ensures { result ≡ matches (chars pattern.now) (chars text.now) }
{
    match first_halt(pattern, text) {
        Halt::End => true,
        Halt::Apart => false,
        Halt::Percent(behind, rest) => some_end_is_like(behind, rest),
    }
}

/// Whether a text, or a text that ends it, matches the pattern. Where the pattern leads from a place to a `%`, that
/// place is as good as any later one, so it is never gone back to.
fn some_end_is_like(pattern: &str, text: &str) -> bool
    ensures { result ≡ some_end (matches (chars pattern.now)) (chars text.now) }
{
    let mut wanted = pattern;
    let mut left = text;
    'parts: while !wanted.is_empty() {
        match halt_from_first_place(wanted, left) {
            Halt::End => return true,
            Halt::Apart => return false,
            Halt::Percent(behind, rest) => {
                wanted = behind;
                left = rest;
            }
        }
    }
    true
}

/// How far the pattern leads from the first place in the text from which it leads on. Only places at which its literal
/// front occurs are tried.
fn halt_from_first_place<'p, 't>(pattern: &'p str, text: &'t str) -> Halt<'p, 't>
    ensures { halt_view result ≡ first_reach (chars pattern.now) (chars text.now) }
{
    let front = Finder::new(front_of(pattern).as_bytes());
    let mut left = text;
    'places: while let Some(place) = front.find(left.as_bytes()) {
        let found = &left[place..];
        match first_halt(pattern, found) {
            Halt::Apart => match first_character(found) {
                Some((_, rest)) => left = rest,
                None => return Halt::Apart,
            },
            halt => return halt,
        }
    }
    Halt::Apart
}

/// The pattern's literal front: what stands before its first `%` or `_`.
fn front_of(pattern: &str) -> &str
    ensures { chars result.now ≡ literal_front (chars pattern.now) }
{
    match memchr2(b'%', b'_', pattern.as_bytes()) {
        Some(end) => &pattern[..end],
        None => pattern,
    }
}

/// How far the pattern leads in the text.
fn first_halt<'p, 't>(pattern: &'p str, text: &'t str) -> Halt<'p, 't>
    ensures { halt_view result ≡ reach (chars pattern.now) (chars text.now) }
{
    let mut wanted = pattern;
    let mut left = text;
    'characters: while let Some((sign, behind)) = first_character(wanted) {
        if sign == '%' {
            return Halt::Percent(behind, left);
        }
        match first_character(left) {
            None => return Halt::Apart,
            Some((character, rest)) => {
                if sign != '_' && sign != character {
                    return Halt::Apart;
                }
                wanted = behind;
                left = rest;
            }
        }
    }
    match first_character(left) {
        None => Halt::End,
        Some(_) => Halt::Apart,
    }
}

/// The first character of a text, and the text behind it.
fn first_character(text: &str) -> Option<(char, &str)>
    ensures { MatchOption result (chars text.now ≡ []) (λ f. chars text.now ≡ f.0 ∷ chars f.1.now) }
{
    let mut characters = text.chars();
    let first = characters.next()?;
    Some((first, characters.as_str()))
}
