//! The line of a made record, put together from pieces.

ghost use Rattle.std.specs.Prelude.{◌≡◌, ◌≤◌, ◌<◌, ◌^◌, ◌+◌, ◌%◌, ◌++◌, ◌==◌, true, not, length, vec_capacity, decimal};
ghost use Rattle.dr_gen.specs.Generator.{is_even, language, name, line_of};
ghost use Rattle.dr_gen.specs.Pieces.{several_text, numbers_text, language_text, name_text, country_piece, url_piece, links_piece};
ghost use Rattle.dr_meaning.specs.Lists.{comma_if};

use itoa::Buffer;

/// More bytes than any line has.
pub(crate) const LINE_ROOM: usize = 1024;

/// Appends a piece.
fn push(line: &mut Vec<u8>, piece: &[u8])
    requires room { length (line.old).items + length piece.now ≤ vec_capacity line.old }
    ensures bytes { (line.new).items ≡ (line.old).items ++ piece.now }
    ensures length { length (line.new).items ≡ length (line.old).items + length piece.now }
    ensures capacity { vec_capacity line.old ≤ vec_capacity line.new }
{
    line.extend_from_slice(piece).unwrap();
}

/// Appends a comma, where something stands before.
fn push_comma(line: &mut Vec<u8>, behind: bool)
    requires room { length (line.old).items + 1 ≤ vec_capacity line.old }
    ensures bytes { (line.new).items ≡ (line.old).items ++ comma_if behind }
    ensures length { length (line.new).items ≤ length (line.old).items + 1 }
    ensures capacity { vec_capacity line.old ≤ vec_capacity line.new }
{
    if behind {
        push(line, b",");
    }
}

/// Appends a number.
fn push_number(line: &mut Vec<u8>, number: u64)
    requires room { length (line.old).items + 20 ≤ vec_capacity line.old }
    ensures bytes { (line.new).items ≡ (line.old).items ++ decimal number }
    ensures length { length (line.new).items ≤ length (line.old).items + 20 }
    ensures capacity { vec_capacity line.old ≤ vec_capacity line.new }
{
    let mut buffer = Buffer::new();
    push(line, buffer.format(number).as_bytes());
}

/// Appends a piece and a number.
fn push_numbered(line: &mut Vec<u8>, piece: &[u8], number: u64)
    requires room { length (line.old).items + length piece.now + 20 ≤ vec_capacity line.old }
    ensures bytes { (line.new).items ≡ (line.old).items ++ piece.now ++ decimal number }
    ensures length { length (line.new).items ≤ length (line.old).items + length piece.now + 20 }
    ensures capacity { vec_capacity line.old ≤ vec_capacity line.new }
{
    push(line, piece);
    push_number(line, number);
}

/// Appends so many numbers, the first of which is this one, separated by commas.
fn push_numbers(line: &mut Vec<u8>, first: u64, count: u64)
    requires small { first < 2 ^ 63 }
    requires few { count ≤ 4 }
    requires room { length (line.old).items + 84 ≤ vec_capacity line.old }
    ensures bytes { (line.new).items ≡ (line.old).items ++ numbers_text first count }
    ensures length { length (line.new).items ≤ length (line.old).items + 84 }
    ensures capacity { vec_capacity line.old ≤ vec_capacity line.new }
{
    'numbers: for place in 0..count {
        push_comma(line, place > 0);
        push_number(line, first + place);
    }
}

/// Appends what stands behind a code: a country, where the sum is even.
fn push_country(line: &mut Vec<u8>, sum: u64, number: u64)
    requires room { length (line.old).items + 34 ≤ vec_capacity line.old }
    ensures bytes { (line.new).items ≡ (line.old).items ++ country_piece (is_even sum) number }
    ensures length { length (line.new).items ≤ length (line.old).items + 34 }
    ensures capacity { vec_capacity line.old ≤ vec_capacity line.new }
{
    if sum % 2 == 0 {
        push_numbered(line, b"\",\"Country\":\"n", number);
    }
}

/// Appends language k of name j of the record of x.
fn push_language(line: &mut Vec<u8>, x: u64, j: u64, k: u64)
    requires small { x < 2 ^ 32 }
    requires name { j < 4 }
    requires language { k < 3 }
    requires room { length (line.old).items + 66 ≤ vec_capacity line.old }
    ensures bytes { (line.new).items ≡ (line.old).items ++ language_text (language x j k) }
    ensures length { length (line.new).items ≤ length (line.old).items + 66 }
    ensures capacity { vec_capacity line.old ≤ vec_capacity line.new }
{
    push_numbered(line, b"{\"Code\":\"c", (x + j + k) % 100);
    push_country(line, x + j + k, (x + k) % 10);
    push(line, b"\"}");
}

/// Appends so many languages of name j of the record of x, separated by commas.
fn push_languages(line: &mut Vec<u8>, x: u64, j: u64, count: u64)
    requires small { x < 2 ^ 32 }
    requires name { j < 4 }
    requires few { count ≤ 3 }
    requires room { length (line.old).items + 201 ≤ vec_capacity line.old }
    ensures bytes { (line.new).items ≡ (line.old).items ++ several_text language_text count (language x j) }
    ensures length { length (line.new).items ≤ length (line.old).items + 201 }
    ensures capacity { vec_capacity line.old ≤ vec_capacity line.new }
{
    'languages: for k in 0..count {
        push_comma(line, k > 0);
        push_language(line, x, j, k);
    }
}

/// Appends what stands behind a name's languages: an address, where the number is odd.
fn push_url(line: &mut Vec<u8>, number: u64)
    requires room { length (line.old).items + 38 ≤ vec_capacity line.old }
    ensures bytes { (line.new).items ≡ (line.old).items ++ url_piece (not (is_even number)) number }
    ensures length { length (line.new).items ≤ length (line.old).items + 38 }
    ensures capacity { vec_capacity line.old ≤ vec_capacity line.new }
{
    if number % 2 != 0 {
        push_numbered(line, b",\"Url\":\"http://u/", number);
        push(line, b"\"");
    }
}

/// Appends name j of the record of x.
fn push_name(line: &mut Vec<u8>, x: u64, j: u64)
    requires small { x < 2 ^ 32 }
    requires name { j < 4 }
    requires room { length (line.old).items + 254 ≤ vec_capacity line.old }
    ensures bytes { (line.new).items ≡ (line.old).items ++ name_text (name x j) }
    ensures length { length (line.new).items ≤ length (line.old).items + 254 }
    ensures capacity { vec_capacity line.old ≤ vec_capacity line.new }
{
    push(line, b"{\"Language\":[");
    push_languages(line, x, j, (x + j) % 3);
    push(line, b"]");
    push_url(line, x + j);
    push(line, b"}");
}

/// Appends so many names of the record of x, separated by commas.
fn push_names(line: &mut Vec<u8>, x: u64, count: u64)
    requires small { x < 2 ^ 32 }
    requires few { count ≤ 3 }
    requires room { length (line.old).items + 765 ≤ vec_capacity line.old }
    ensures bytes { (line.new).items ≡ (line.old).items ++ several_text name_text count (name x) }
    ensures length { length (line.new).items ≤ length (line.old).items + 765 }
    ensures capacity { vec_capacity line.old ≤ vec_capacity line.new }
{
    'names: for j in 0..count {
        push_comma(line, j > 0);
        push_name(line, x, j);
    }
}

/// Appends the links of the record of x, as a member behind others.
fn push_links(line: &mut Vec<u8>, x: u64)
    requires small { x < 2 ^ 32 }
    requires room { length (line.old).items + 205 ≤ vec_capacity line.old }
    ensures bytes { (line.new).items ≡ (line.old).items ++ links_piece true x }
    ensures length { length (line.new).items ≤ length (line.old).items + 205 }
    ensures capacity { vec_capacity line.old ≤ vec_capacity line.new }
{
    push(line, b",\"Links\":{\"Backward\":[");
    push_numbers(line, x + 1, x % 4);
    push(line, b"],\"Forward\":[");
    push_numbers(line, 10 * x, x % 5);
    push(line, b"]}");
}

/// Appends what stands behind the number of a record: its links, where 3 doesn't divide it.
fn push_given_links(line: &mut Vec<u8>, x: u64)
    requires small { x < 2 ^ 32 }
    requires room { length (line.old).items + 205 ≤ vec_capacity line.old }
    ensures bytes { (line.new).items ≡ (line.old).items ++ links_piece (not (x % 3 == 0)) x }
    ensures length { length (line.new).items ≤ length (line.old).items + 205 }
    ensures capacity { vec_capacity line.old ≤ vec_capacity line.new }
{
    if x % 3 != 0 {
        push_links(line, x);
    }
}

/// Appends the line of x, with its LF.
pub(crate) fn push_line(line: &mut Vec<u8>, x: u64)
    requires small { x < 2 ^ 32 }
    requires room { length (line.old).items + 1024 ≤ vec_capacity line.old }
    ensures bytes { (line.new).items ≡ (line.old).items ++ line_of x }
    ensures capacity { vec_capacity line.old ≤ vec_capacity line.new }
{
    push_numbered(line, b"{\"DocId\":", x);
    push_given_links(line, x);
    push(line, b",\"Name\":[");
    push_names(line, x, x % 4);
    push(line, b"]}\n");
}
