//! The names of a shape in quotes, made once for all of a result's objects.

ghost use Rattle.std.specs.Prelude.{◌≡◌, map, string_bytes, IfOk};
ghost use Rattle.dr_cells.specs.Shapes.{shape_view, lists_view};
ghost use Rattle.dr_print.specs.Quoted.{name_in_quotes, in_quotes, lists_in_quotes, quoted_view, quoted_lists_view};

use crate::parts::push_name;
use crate::quoted_shape::{QuotedList, QuotedShape};
use dr_cells::{ListShape, Shape};
use std::alloc::{AllocError, Global};

/// A name in quotes, and a colon.
fn quote_name(alloc: Global, name: &str) -> Result<String, AllocError>
    ensures { IfOk result (λ s. string_bytes s ≡ name_in_quotes name.now) }
{
    let mut text = String::new(alloc);
    push_name(alloc, &mut text, name)?;
    Ok(text)
}

/// Names in quotes, each with a colon.
fn quote_names(alloc: Global, names: &[String]) -> Result<Vec<String>, AllocError>
    ensures { IfOk result (λ v. map string_bytes v.items ≡ map name_in_quotes (map string_bytes names.now)) }
{
    let mut texts = Vec::with_capacity(alloc, names.len())?;
    'names: for name in names {
        texts.push(quote_name(alloc, name.as_str())?)?;
    }
    Ok(texts)
}

/// A shape with its names in quotes.
///
/// Errors: want of memory alone.
#[cycle(quoting)]
pub fn quote_shape(alloc: Global, shape: &Shape) -> Result<QuotedShape, AllocError>
    ensures { IfOk result (λ q. quoted_view q ≡ in_quotes (shape_view shape.now)) }
{
    let names = quote_names(alloc, &shape.names)?;
    let lists = quote_lists(alloc, &shape.lists)?;
    Ok(QuotedShape { names, lists })
}

/// The lists in it.
#[cycle(quoting)]
fn quote_lists(alloc: Global, lists: &Vec<ListShape>) -> Result<Vec<QuotedList>, AllocError>
    ensures { IfOk result (λ v. quoted_lists_view v.items ≡ lists_in_quotes (lists_view (lists.now).items)) }
{
    let mut quotes = Vec::with_capacity(alloc, lists.len())?;
    'lists: for list in lists {
        let name = quote_name(alloc, list.name.as_str())?;
        let shape = quote_shape(alloc, &list.shape)?;
        quotes.push(QuotedList { name, shape })?;
    }
    Ok(quotes)
}
