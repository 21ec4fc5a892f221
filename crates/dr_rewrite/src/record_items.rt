//! Items of record queries.

ghost use Rattle.std.specs.Prelude.{◌≡◌, map, string_bytes, IfOk};
ghost use Rattle.dr_rewrite.specs.Items as written;

use crate::names::push_quoted_name;
use crate::paths::Names;
use crate::terms::push_record_term;
use dr_memory::NoMemory;
use dr_plan::RecordItem;
use std::alloc::Global;

/// An item of a record query, with its name.
fn record_item(alloc: Global, item: &RecordItem, names: &Names<'_>) -> Result<String, NoMemory>
    ensures { IfOk result (λ s. string_bytes s ≡ written.record_item_text names.now item.now) }
{
    let mut text = String::new(alloc);
    push_record_term(&item.term, names, &mut text)?;
    text.push_str(" AS ")?;
    push_quoted_name(item.name.as_str(), &mut text)?;
    Ok(text)
}

/// The items of a record query.
pub(crate) fn record_items(
    alloc: Global,
    items: &[RecordItem],
    names: &Names<'_>,
) -> Result<Vec<String>, NoMemory>
    ensures { IfOk result (λ v. map string_bytes v.items ≡ map (written.record_item_text names.now) items.now) }
{
    let mut texts = Vec::with_capacity(alloc, items.len())?;
    'items: for item in items {
        texts.push(record_item(alloc, item, names)?)?;
    }
    Ok(texts)
}
