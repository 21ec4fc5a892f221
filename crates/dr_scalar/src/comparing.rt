//! Comparisons of values.

ghost use Rattle.std.specs.Prelude.{◌≡◌, option_map};
ghost use Rattle.dr_meaning.specs.Expression as meant;
ghost use Rattle.dr_meaning.specs.Record.{bool_value, int_value, text_value};
ghost use Rattle.dr_plan.specs.Views.{comparison_view};

use dr_plan::Comparison;
use std::cmp::Ordering;

/// What a comparison of two whole numbers gives; NULL where one is.
#[inline(always)]
pub(crate) fn compare_numbers(
    comparison: Comparison,
    left: Option<i64>,
    right: Option<i64>,
) -> Option<bool>
    ensures { option_map bool_value result ≡ meant.on_both (meant.compared (comparison_view comparison))
        (option_map int_value left) (option_map int_value right) }
{
    Some(holds(comparison, left?.cmp(&right?)))
}

/// What a comparison of two truth values gives; NULL where one is.
#[inline(always)]
pub(crate) fn compare_truths(
    comparison: Comparison,
    left: Option<bool>,
    right: Option<bool>,
) -> Option<bool>
    ensures { option_map bool_value result ≡ meant.on_both (meant.compared (comparison_view comparison))
        (option_map bool_value left) (option_map bool_value right) }
{
    Some(holds(comparison, left?.cmp(&right?)))
}

/// What a comparison of two texts gives, by their bytes.
#[inline]
pub(crate) fn compare_texts(comparison: Comparison, left: &str, right: &str) -> bool
    ensures { result ≡ meant.is_true (meant.compared (comparison_view comparison) (text_value left.now)
        (text_value right.now)) }
{
    holds(comparison, left.cmp(right))
}

/// Whether a comparison holds of two values that stand in this order.
#[inline(always)]
fn holds(comparison: Comparison, order: Ordering) -> bool
    ensures { result ≡ meant.holds (comparison_view comparison) order }
{
    match comparison {
        Comparison::Equal => order.is_eq(),
        Comparison::Unequal => order.is_ne(),
        Comparison::Less => order.is_lt(),
        Comparison::AtMost => order.is_le(),
        Comparison::Greater => order.is_gt(),
        Comparison::AtLeast => order.is_ge(),
    }
}
