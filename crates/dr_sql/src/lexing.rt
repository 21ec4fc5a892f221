//! The tokens of a query's text.

ghost use Rattle.std.specs.Prelude.{◌≡◌, ◌==◌, ◌≤◌, ◌<◌, ◌+◌, ◌-◌, ◌*◌, ◌∷◌, MatchOption, IfOk, IfSome, ◌^◌, drop, length, not, true, false};
ghost use Rattle.std.specs.List.{list_all, position, position_or_len};
ghost use Rattle.dr_meaning.specs.Schema as tree;
ghost use Rattle.dr_meaning.specs.SchemaText as blanks;
ghost use Rattle.dr_meaning.specs.Tokens as language;
ghost use Rattle.dr_meaning.specs.TokenLaws.{begins_so, digits_value};
ghost use Rattle.std.specs.Str.{IsCharBoundary};
ghost use Rattle.dr_sql.specs.TokenViews.{placed_views, token_view};
ghost use Rattle.dr_sql.specs.Lexing.{bounded, BeginsWith, EndsText, NeverEnds};

use crate::numeral::Numeral;
use crate::token::{PlacedToken, Token};
use crate::word::Sign;
use crate::words::word_of;
use std::alloc::{AllocError, Global};

/// The greatest number that a query may name.
const GREATEST_NUMBER: u64 = 9_223_372_036_854_775_807;

/// A token and the number of bytes that it takes.
#[derive(Clone, Copy)]
struct Lexed<'a> {
    token: Token<'a>,
    length: usize,
}

fn is_blank(byte: u8) -> bool
    ensures { result ≡ blanks.is_blank byte }
{
    matches!(byte, b' ' | b'\t' | b'\r' | b'\n')
}

fn begins_name(byte: u8) -> bool
    ensures { result ≡ tree.begins_name byte }
{
    matches!(byte, b'A'..=b'Z' | b'a'..=b'z' | b'_')
}

fn is_digit(byte: u8) -> bool
    ensures { result ≡ language.is_digit byte }
{
    byte.is_ascii_digit()
}

fn continues_name(byte: u8) -> bool
    ensures { result ≡ tree.continues_name byte }
{
    begins_name(byte) || is_digit(byte)
}

/// The bytes of a text from a place on.
fn bytes_from<'a>(text: &'a str, place: usize) -> &'a [u8]
    requires { place ≤ length text.now }
    ensures { result.now ≡ drop place text.now }
{
    &text.as_bytes()[place..]
}

fn all_continue(bytes: &[u8]) -> bool
    ensures { result ≡ list_all tree.continues_name bytes.now }
{
    bytes.iter().all(|byte| continues_name(*byte))
}

/// Whether bytes are a letter or `_` and then letters, digits and `_`.
fn is_name(bytes: &[u8]) -> bool
    ensures { result ≡ tree.is_name bytes.now }
{
    match bytes.split_first() {
        Some((first, rest)) => begins_name(*first) && all_continue(rest),
        None => false,
    }
}

/// The place of the first byte that goes on with no name.
fn name_end(bytes: &[u8]) -> Option<usize>
    ensures { result ≡ position (λ b. not (tree.continues_name b)) bytes.now }
{
    bytes.iter().position(|byte| !continues_name(*byte))
}

/// The place of the first byte that is no digit.
fn digits_end(bytes: &[u8]) -> Option<usize>
    ensures { result ≡ position (λ b. not (language.is_digit b)) bytes.now }
{
    bytes.iter().position(|byte| !is_digit(*byte))
}

/// How many bytes at the front go on with a name.
fn name_length(bytes: &[u8]) -> usize
    ensures length { result ≡ position_or_len (λ b. not (tree.continues_name b)) bytes.now }
    ensures within { result ≤ length bytes.now }
{
    match name_end(bytes) {
        Some(place) => place,
        None => bytes.len(),
    }
}

/// How many bytes at the front are digits.
fn digits_length(bytes: &[u8]) -> usize
    ensures length { result ≡ position_or_len (λ b. not (language.is_digit b)) bytes.now }
    ensures within { result ≤ length bytes.now }
{
    match digits_end(bytes) {
        Some(place) => place,
        None => bytes.len(),
    }
}

/// The place of the first double quote.
fn quote_place(bytes: &[u8]) -> Option<usize>
    ensures { result ≡ position (λ b. b == 34) bytes.now }
{
    bytes.iter().position(|byte| *byte == b'"')
}

/// A number with one more digit, where it isn't past the greatest.
fn with_digit(number: u64, digit: u8) -> Option<u64>
    requires { language.is_digit digit ≡ true }
    ensures { result ≡ bounded (number * 10 + (digit - 48)) }
{
    let number = number.checked_mul(10)?;
    let number = number.checked_add(u64::from(digit - b'0'))?;
    if number <= GREATEST_NUMBER {
        Some(number)
    } else {
        None
    }
}

/// The number that digits write, where it isn't past the greatest.
fn number_of(digits: &[u8]) -> Option<u64>
    requires { list_all language.is_digit digits.now ≡ true }
    ensures value { result ≡ bounded (digits_value 0 digits.now) }
    ensures small { IfSome result (λ n. n < 2 ^ 63) }
{
    let mut number = 0;
    'digits: for digit in digits {
        number = with_digit(number, *digit)?;
    }
    Some(number)
}

/// Whether a single quote stands at a place.
fn has_quote_at(bytes: &[u8], place: usize) -> bool
    ensures { result ≡ begins_so (λ b. b == 39) (drop place bytes.now) }
{
    match bytes.get(place) {
        Some(byte) => *byte == b'\'',
        None => false,
    }
}

/// How many bytes write the text behind a single quote, up to the quote that ends it, if there is one.
fn text_length(bytes: &[u8]) -> Option<usize>
    ensures { MatchOption result (NeverEnds bytes.now) (λ n. EndsText bytes.now n) }
{
    let mut length = 0;
    'bytes: while length < bytes.len() {
        if !has_quote_at(bytes, length) {
            length += 1;
        } else if has_quote_at(bytes, length + 1) {
            length += 2;
        } else {
            return Some(length);
        }
    }
    None
}

/// The token that a bare name is: a reserved word or the name.
fn bare_token<'a>(name: &'a str) -> Token<'a>
    ensures { token_view result ≡ language.name_token name.now }
{
    match word_of(name) {
        Some(word) => Token::Word(word),
        None => Token::Name(name),
    }
}

/// The token that double quotes round these bytes are: a name, or a bad token.
fn quoted_token<'a>(name: &'a str) -> Token<'a>
    ensures { token_view result ≡ language.quoted_token name.now }
{
    if is_name(name.as_bytes()) {
        Token::Name(name)
    } else {
        Token::Bad
    }
}

/// The token that digits are: their number, or a bad token where it is past the greatest.
fn digits_token<'a>(digits: &'a [u8]) -> Token<'a>
    requires { list_all language.is_digit digits.now ≡ true }
    ensures { token_view result ≡ language.number_token (digits_value 0 digits.now) }
{
    match number_of(digits) {
        Some(value) => Token::Number(Numeral { value }),
        None => Token::Bad,
    }
}

/// The sign of one byte, or a bad token.
fn sign_token<'a>(byte: u8) -> Token<'a>
    ensures { token_view result ≡ language.sign_token byte }
{
    match byte {
        b',' => Token::Sign(Sign::Comma),
        b'(' => Token::Sign(Sign::Open),
        b')' => Token::Sign(Sign::Close),
        b'.' => Token::Sign(Sign::Dot),
        b'*' => Token::Sign(Sign::Star),
        b'+' => Token::Sign(Sign::Plus),
        b'-' => Token::Sign(Sign::Minus),
        b'=' => Token::Sign(Sign::Equal),
        b';' => Token::Sign(Sign::Semicolon),
        _ => Token::Bad,
    }
}

/// A sign of so many bytes.
fn sign<'a>(sign: Sign, length: usize) -> Lexed<'a>
    ensures token { result.token ≡ Token.Sign sign }
    ensures length { result.length ≡ length }
{
    Lexed {
        token: Token::Sign(sign),
        length,
    }
}

/// The sign that `<` before these bytes begins.
fn less<'a>(behind: &'a [u8]) -> Lexed<'a>
    ensures { BeginsWith (60 ∷ behind.now) result.token result.length }
{
    match behind.first() {
        Some(b'=') => sign(Sign::LessOrEqual, 2),
        Some(b'>') => sign(Sign::Differ, 2),
        _ => sign(Sign::Less, 1),
    }
}

/// The sign that `>` before these bytes begins.
fn greater<'a>(behind: &'a [u8]) -> Lexed<'a>
    ensures { BeginsWith (62 ∷ behind.now) result.token result.length }
{
    match behind.first() {
        Some(b'=') => sign(Sign::GreaterOrEqual, 2),
        _ => sign(Sign::Greater, 1),
    }
}

/// The number that bytes begin with.
fn number<'a>(bytes: &'a [u8]) -> Lexed<'a>
    requires { begins_so language.is_digit bytes.now ≡ true }
    ensures { BeginsWith bytes.now result.token result.length }
{
    let length = digits_length(bytes);
    Lexed {
        token: digits_token(&bytes[..length]),
        length,
    }
}

/// The bare name or the reserved word at a place.
fn word<'a>(text: &'a str, place: usize) -> Lexed<'a>
    requires within { place ≤ length text.now }
    requires name { begins_so tree.begins_name (drop place text.now) ≡ true }
    ensures { BeginsWith (drop place text.now) result.token result.length }
{
    let length = name_length(bytes_from(text, place));
    Lexed {
        token: bare_token(&text[place..place + length]),
        length,
    }
}

/// The token that a double quote before a place begins.
fn quoted_name<'a>(text: &'a str, place: usize) -> Lexed<'a>
    requires within { place ≤ length text.now }
    requires boundary { IsCharBoundary text.now place }
    ensures { BeginsWith (34 ∷ drop place text.now) result.token result.length }
{
    let bytes = bytes_from(text, place);
    match quote_place(bytes) {
        None => Lexed {
            token: Token::Bad,
            length: bytes.len() + 1,
        },
        Some(end) => Lexed {
            token: quoted_token(&text[place..place + end]),
            length: end + 2,
        },
    }
}

/// The token that a single quote before a place begins.
fn quoted_text<'a>(text: &'a str, place: usize) -> Lexed<'a>
    requires within { place ≤ length text.now }
    requires boundary { IsCharBoundary text.now place }
    ensures { BeginsWith (39 ∷ drop place text.now) result.token result.length }
{
    let bytes = bytes_from(text, place);
    match text_length(bytes) {
        None => Lexed {
            token: Token::Bad,
            length: bytes.len() + 1,
        },
        Some(end) => Lexed {
            token: Token::Text(&text[place..place + end]),
            length: end + 2,
        },
    }
}

/// The token at a place where no blank is.
fn token_at<'a>(text: &'a str, place: usize) -> Lexed<'a>
    requires within { place < length text.now }
    requires token { begins_so blanks.is_blank (drop place text.now) ≡ false }
    ensures { BeginsWith (drop place text.now) result.token result.length }
{
    let bytes = text.as_bytes();
    match bytes[place] {
        b'"' => quoted_name(text, place + 1),
        b'\'' => quoted_text(text, place + 1),
        b'<' => less(&bytes[place + 1..]),
        b'>' => greater(&bytes[place + 1..]),
        first if begins_name(first) => word(text, place),
        first if is_digit(first) => number(&bytes[place..]),
        first => Lexed {
            token: sign_token(first),
            length: 1,
        },
    }
}

/// The tokens of a text, each with its place.
pub fn tokens_of<'a>(alloc: Global, text: &'a str) -> Result<Vec<PlacedToken<'a>>, AllocError>
    ensures { IfOk result (λ ts. placed_views ts.items ≡ language.query_tokens text.now) }
{
    let bytes = text.as_bytes();
    let mut tokens = Vec::new(alloc);
    let mut place = 0;
    'bytes: while place < bytes.len() {
        if is_blank(bytes[place]) {
            place += 1;
        } else {
            let Lexed { token, length } = token_at(text, place);
            tokens.push(PlacedToken { place, token })?;
            place += length;
        }
    }
    Ok(tokens)
}
