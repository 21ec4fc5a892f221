//! The text of a column: one triplet to a line.

ghost use Rattle.std.specs.Prelude.{◌≡◌, ◌++◌, decimal, string_bytes, option_map, IfOk, OnOk};
ghost use Rattle.std.specs.Fmt.{signed_decimal};
ghost use Rattle.dr_meaning.specs.Print as print;
ghost use Rattle.dr_meaning.specs.Stripe as stripe;
ghost use Rattle.dr_levels.specs.Views.{lent_value, triplet_view, triplets_view, column_view};

use crate::parts::push_quoted;
use dr_levels::{Column, Triplet, Triplets, ValueRef};
use dr_nested::NoMemory;
use itoa::Buffer;
use std::alloc::{AllocError, Global};

/// Appends a number.
pub fn push_level(text: &mut String, level: u32) -> Result<(), AllocError>
    ensures { OnOk result (string_bytes text.new ≡ string_bytes text.old ++ decimal level) }
{
    let mut buffer = Buffer::new();
    text.push_str(buffer.format(level))
}

pub(crate) fn push_int(text: &mut String, number: i64) -> Result<(), AllocError>
    ensures { OnOk result (string_bytes text.new ≡ string_bytes text.old ++ signed_decimal number) }
{
    let mut buffer = Buffer::new();
    text.push_str(buffer.format(number))
}

/// Appends a value as compact JSON.
///
/// Errors: want of memory alone; the text may then have a part of the value behind what it had.
pub fn push_lent_value(
    alloc: Global,
    text: &mut String,
    value: ValueRef<'_>,
) -> Result<(), AllocError>
    ensures { OnOk result (string_bytes text.new
        ≡ string_bytes text.old ++ print.value_text (lent_value value.entry)) }
{
    match value {
        ValueRef::Bool(true) => text.push_str("true"),
        ValueRef::Bool(false) => text.push_str("false"),
        ValueRef::Int(number) => push_int(text, number),
        ValueRef::Text(value) => push_quoted(alloc, text, value),
    }
}

/// Appends a value, or `NULL`.
fn push_value(
    alloc: Global,
    text: &mut String,
    value: Option<ValueRef<'_>>,
) -> Result<(), AllocError>
    ensures { OnOk result (string_bytes text.new
        ≡ string_bytes text.old ++ stripe.value_or_null (option_map lent_value value.entry)) }
{
    match value {
        None => text.push_str("NULL"),
        Some(value) => push_lent_value(alloc, text, value),
    }
}

/// Appends a triplet's line.
fn push_triplet(alloc: Global, text: &mut String, triplet: Triplet<'_>) -> Result<(), AllocError>
    ensures { OnOk result (string_bytes text.new
        ≡ string_bytes text.old ++ stripe.triplet_text (triplet_view triplet.entry)) }
{
    push_value(alloc, text, triplet.value)?;
    text.push_str(" ")?;
    push_level(text, u32::from(triplet.repetition))?;
    text.push_str(" ")?;
    push_level(text, u32::from(triplet.definition))?;
    text.push_str("\n")
}

/// A triplet's line: its value as compact JSON or `NULL`, its repetition level, its definition level, and LF.
///
/// Errors: want of memory alone.
pub fn triplet_text(alloc: Global, triplet: Triplet<'_>) -> Result<String, NoMemory>
    ensures { IfOk result (λ s. string_bytes s ≡ stripe.triplet_text (triplet_view triplet.entry)) }
{
    let mut text = String::new(alloc);
    push_triplet(alloc, &mut text, triplet)?;
    Ok(text)
}

/// Appends the lines of the triplets that are left.
fn push_triplets(alloc: Global, text: &mut String, rest: Triplets<'_>) -> Result<(), AllocError>
    ensures { OnOk result (string_bytes text.new
        ≡ string_bytes text.old ++ stripe.column_text (triplets_view rest.entry)) }
{
    let mut rest = rest;
    'triplets: loop {
        match rest.next() {
            Some(triplet) => push_triplet(alloc, text, triplet)?,
            None => return Ok(()),
        }
    }
}

/// The lines of a column's triplets.
///
/// Errors: want of memory alone.
pub fn column_text(alloc: Global, column: &Column) -> Result<String, NoMemory>
    ensures { IfOk result (λ s. string_bytes s ≡ stripe.column_text (column_view column.now)) }
{
    let mut text = String::new(alloc);
    push_triplets(alloc, &mut text, column.triplets())?;
    Ok(text)
}
