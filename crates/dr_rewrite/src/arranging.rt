//! ORDER BY and LIMIT, at the end of the root's query.

ghost use Rattle.std.specs.Prelude.{◌≡◌, ◌++◌, option_map, string_bytes, OnOk};
ghost use Rattle.std.specs.List.{slice_get};
ghost use Rattle.dr_ordered.specs.Orders.{order_view};
ghost use Rattle.dr_rewrite.specs.Arranging.{record_name, value_names};
ghost use Rattle.dr_sub_meaning.specs.NestedText as meant;

use crate::names::push_quoted_name;
use dr_ordered::Order;
use dr_plan::{RecordItem, Selection};
use itoa::Buffer;
use std::alloc::AllocError;

/// The name of the record item of this number; empty where there is none.
fn name_of_item(items: &[RecordItem], number: u32) -> &str
    ensures { result.now ≡ record_name (slice_get items.now number) }
{
    match items.get(number as usize) {
        Some(item) => item.name.as_str(),
        None => "",
    }
}

/// The name of the outermost object's item of this number; empty where there is none.
fn value_name(selection: &Selection, number: usize) -> &str
    ensures { result.now ≡ meant.nth_name number (value_names selection.now) }
{
    match selection {
        Selection::Objects(items, object) => match object.items.get(number) {
            Some(item) => name_of_item(items, *item),
            None => "",
        },
        Selection::Groups(_, _, items) => match items.get(number) {
            Some(item) => item.name.as_str(),
            None => "",
        },
    }
}

/// Appends ORDER BY, the name by which a result goes and its direction, where that is asked.
pub(crate) fn push_order(
    order: &Option<Order>,
    selection: &Selection,
    out: &mut String,
) -> Result<(), AllocError>
    ensures { OnOk result (string_bytes out.new
        ≡ string_bytes out.old ++ meant.order_text (value_names selection.now) (option_map order_view order.now)) }
{
    match order {
        None => Ok(()),
        Some(order) => {
            out.push_str(" ORDER BY ")?;
            push_quoted_name(value_name(selection, order.item), out)?;
            out.push_str(if order.descending { " DESC" } else { " ASC" })
        }
    }
}

/// Appends LIMIT and how many objects a result has at most, where that is asked.
pub(crate) fn push_limit(limit: Option<u64>, out: &mut String) -> Result<(), AllocError>
    ensures { OnOk result (string_bytes out.new ≡ string_bytes out.old ++ meant.limit_text limit) }
{
    match limit {
        None => Ok(()),
        Some(most) => {
            out.push_str(" LIMIT ")?;
            let mut buffer = Buffer::new();
            out.push_str(buffer.format(most))
        }
    }
}
