//! The lines that tell which tablets are left, and why.

ghost use Rattle.std.specs.Prelude.{◌≡◌, ◌++◌, ◌<◌, decimal, string_bytes, map, IfOk, OnOk};
ghost use Rattle.dr_formats.specs.Reports.{left_leaves_text};
ghost use Rattle.dr_reading.specs.LeftText.{told_leaf, in_directory, ascending, left_line, left_text as meant_text};
ghost use Rattle.dr_table.specs.LeftViews.{tried_view, all_tried_view, left_view, all_left_view};
ghost use Rattle.dr_table.specs.Reports.{tried_text, leaves_text, still};

use crate::left::{LeftTablet, Tried};
use crate::limits::MOST_LEAF_LINES;
use dr_memory::NoMemory;
use itoa::Buffer;
use std::alloc::{AllocError, Global};

/// Appends a number.
fn push_number(text: &mut String, number: u32) -> Result<(), AllocError>
    ensures { OnOk result (string_bytes text.new ≡ string_bytes text.old ++ decimal number) }
{
    let mut buffer = Buffer::new();
    text.push_str(buffer.format(number))
}

/// Appends a copy that was tried: the first, or one behind others.
fn push_tried(text: &mut String, tried: &Tried, first: bool) -> Result<(), AllocError>
    ensures { OnOk result (string_bytes text.new ≡ string_bytes text.old ++ tried_text first (tried_view tried.now)) }
{
    if !first {
        text.push_str("; ")?;
    }
    push_number(text, tried.directory)?;
    text.push_str(" ")?;
    text.push_str(tried.cause.name())
}

/// Appends those of the copies that lie in one directory, and answers whether none stands there yet.
fn push_directory(
    text: &mut String,
    tried: &[Tried],
    directory: u32,
    first: bool,
) -> Result<bool, AllocError>
    ensures text { OnOk result (string_bytes text.new
        ≡ string_bytes text.old ++ leaves_text first (in_directory (all_tried_view tried.now) directory)) }
    ensures first { IfOk result (λ now. now ≡ still first (in_directory (all_tried_view tried.now) directory)) }
{
    let mut first = first;
    'tried: for copy in tried {
        if copy.directory == directory {
            push_tried(text, copy, first)?;
            first = false;
        }
    }
    Ok(first)
}

/// Appends the copies that were tried, by ascending directory.
fn push_leaves(text: &mut String, tried: &[Tried]) -> Result<(), AllocError>
    ensures { OnOk result (string_bytes text.new
        ≡ string_bytes text.old ++ left_leaves_text (map told_leaf (ascending (all_tried_view tried.now)))) }
{
    let mut first = true;
    'directories: for directory in 0..MOST_LEAF_LINES as u32 {
        first = push_directory(text, tried, directory, first)?;
    }
    Ok(())
}

/// The line of a tablet that is left.
fn push_line(alloc: Global, text: &mut String, left: &LeftTablet) -> Result<(), AllocError>
    ensures { OnOk result (string_bytes text.new ≡ string_bytes text.old ++ left_line (left_view left.now)) }
{
    let head = format!(in alloc; "left t{:06}: ", left.tablet)?;
    text.push_str(head.as_str())?;
    push_leaves(text, &left.tried)?;
    text.push_str("\n")
}

/// The lines that tell which tablets are left: `left tNNNNNN: L CAUSE; L CAUSE`, a line for each, its copies by
/// ascending directory.
///
/// Errors: want of memory alone.
pub fn left_text(alloc: Global, left: &[LeftTablet]) -> Result<String, NoMemory>
    ensures { IfOk result (λ s. string_bytes s ≡ meant_text (all_left_view left.now)) }
{
    let mut text = String::new(alloc);
    'left: for tablet in left {
        push_line(alloc, &mut text, tablet)?;
    }
    Ok(text)
}
