//! Options and words of a command line, and their values.

ghost use Rattle.std.specs.Prelude.{◌≡◌, ◌<◌, ◌≤◌, IfOk, map, false, string_bytes};
ghost use Rattle.clap.specs.Words.{all_of, first_of, found_of, new_rule, rows_of, rule_of};
ghost use Rattle.dr_words.specs.Rules as meant;
ghost use Rattle.dr_words.specs.Rules.{Answers};
ghost use Rattle.dr_words.specs.Numbers.{number_rule, number_in};

use crate::words_fault::WordsFault;
use clap::builder::ValueParser;
use clap::{Arg, ArgMatches};
use std::alloc::{AllocError, Global};

/// An option `--NAME VALUE` that has to be given, at most once.
pub fn needed_option<'a>(alloc: Global, name: &'a str) -> Arg<'a>
    ensures rule { rule_of result ≡ meant.needed (meant.option_rule name.entry.now) }
    ensures local { result.global ≡ false }
{
    Arg::new(alloc, name).long(name).required(true)
}

/// A word that has to be given.
pub fn needed_word<'a>(alloc: Global, name: &'a str) -> Arg<'a>
    ensures rule { rule_of result ≡ meant.needed (new_rule name.entry.now) }
    ensures local { result.global ≡ false }
{
    Arg::new(alloc, name).required(true)
}

/// One or more words that have to be given.
pub fn needed_words<'a>(alloc: Global, name: &'a str) -> Arg<'a>
    ensures rule { rule_of result ≡ meant.several (meant.needed (new_rule name.entry.now)) }
    ensures local { result.global ≡ false }
{
    Arg::new(alloc, name).required(true).num_args(1..)
}

/// One word or more that have to be given, up to so many.
pub fn needed_words_up_to<'a>(alloc: Global, name: &'a str, most: usize) -> Arg<'a>
    requires { 0 < most }
    ensures rule { rule_of result ≡ meant.up_to most (meant.needed (new_rule name.entry.now)) }
    ensures local { result.global ≡ false }
{
    Arg::new(alloc, name).required(true).num_args(1..=most)
}

/// An option `--NAME NUMBER`, at most once, whose number lies between these bounds.
pub fn number_option<'a>(alloc: Global, name: &'a str, low: u32, high: u32) -> Arg<'a>
    ensures rule { rule_of result ≡ number_rule name.entry.now low high }
    ensures local { result.global ≡ false }
{
    Arg::new(alloc, name)
        .long(name)
        .value_parser(ValueParser::unsigned(u64::from(low), u64::from(high)))
}

/// An option `--NAME NUMBER` that has to be given, at most once, whose number lies between these bounds.
pub fn needed_number<'a>(alloc: Global, name: &'a str, low: u32, high: u32) -> Arg<'a>
    ensures rule { rule_of result ≡ meant.needed (number_rule name.entry.now low high) }
    ensures local { result.global ≡ false }
{
    number_option(alloc, name, low, high).required(true)
}

/// The number that a text writes between these bounds, or the other.
fn number_or(text: &str, low: u32, high: u32, other: u32) -> u32
    ensures number { result ≡ number_in low high other (Some text.now) }
    ensures within { low ≤ other → other ≤ high → (low ≤ result) × (result ≤ high) }
{
    match text.parse::<u32>() {
        Ok(number) if low <= number && number <= high => number,
        _ => other,
    }
}

/// The number of an option between these bounds, or the other where it isn't given. clap takes no number out of the
/// bounds.
pub fn number_of(matches: &ArgMatches<'_>, name: &str, low: u32, high: u32, other: u32) -> u32
    ensures number { result ≡ number_in low high other (first_of name.now (rows_of (found_of matches.now))) }
    ensures within { low ≤ other → other ≤ high → (low ≤ result) × (result ≤ high) }
{
    match matches.get_str(name) {
        Some(text) => number_or(text, low, high, other),
        None => other,
    }
}

/// The first value of an option or word.
pub fn value_of(alloc: Global, matches: &ArgMatches<'_>, name: &str) -> Result<String, WordsFault>
    ensures { Answers string_bytes (first_of name.now (rows_of (found_of matches.now))) result }
{
    match matches.get_str(name) {
        Some(text) => Ok(String::from_str(alloc, text)?),
        None => Err(WordsFault::Usage),
    }
}

/// All values of an option or word.
pub fn values_of(
    alloc: Global,
    matches: &ArgMatches<'_>,
    name: &str,
) -> Result<Vec<String>, WordsFault>
    ensures { Answers (λ v. map string_bytes v.items) (all_of name.now (rows_of (found_of matches.now))) result }
{
    match matches.get_strs(name) {
        Some(texts) => Ok(copy_texts(alloc, texts)?),
        None => Err(WordsFault::Usage),
    }
}

/// Texts of its own that equal these.
fn copy_texts(alloc: Global, texts: &[&str]) -> Result<Vec<String>, AllocError>
    ensures { IfOk result (λ v. map string_bytes v.items ≡ map (λ t. t.now) texts.now) }
{
    let mut copies = Vec::new(alloc);
    'texts: for text in texts {
        copies.push(String::from_str(alloc, text)?)?;
    }
    Ok(copies)
}
