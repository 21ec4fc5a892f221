//! Conditions.

ghost use Rattle.std.specs.Prelude.{◌≡◌, ◌++◌, map, string_bytes, OnOk};
ghost use Rattle.std.specs.List.{slice_get};
ghost use Rattle.dr_partials.specs.RewritingText as meant;
ghost use Rattle.dr_plan.specs.Conjuncts.{or_true};
ghost use Rattle.dr_plan.specs.Views.{truth_view};
ghost use Rattle.dr_rewrite.specs.Writing.{condition_text, rejoined_text, written_leaves, written_path};

use crate::expressions::push_truth_of;
use crate::literals::push_truth;
use crate::paths::Names;
use dr_plan::{Joining, Truth};
use std::alloc::AllocError;

/// Appends WHERE with a condition as it was written, given its conjuncts and how it joins them; nothing where there is
/// none.
pub(crate) fn push_condition(
    tests: &[Truth],
    joining: &Option<Joining>,
    names: &Names<'_>,
    out: &mut String,
) -> Result<(), AllocError>
    ensures { OnOk result (string_bytes out.new
        ≡ string_bytes out.old ++ condition_text names.now tests.now joining.now) }
{
    match joining {
        None => Ok(()),
        Some(joining) => {
            out.push_str(" WHERE ")?;
            push_joined(joining, tests, names, out)
        }
    }
}

/// Appends conjuncts that are joined so.
fn push_joined(
    joining: &Joining,
    tests: &[Truth],
    names: &Names<'_>,
    out: &mut String,
) -> Result<(), AllocError>
    ensures { OnOk result (string_bytes out.new
        ≡ string_bytes out.old ++ rejoined_text names.now tests.now joining.now) }
{
    match joining {
        Joining::Conjunct(number) => push_conjunct(*number, tests, names, out),
        Joining::And(left, right) => {
            out.push_str("(")?;
            push_joined(left, tests, names, out)?;
            out.push_str(" AND ")?;
            push_joined(right, tests, names, out)?;
            out.push_str(")")
        }
    }
}

/// Appends the conjunct of this number; TRUE where there is none.
fn push_conjunct(
    number: usize,
    tests: &[Truth],
    names: &Names<'_>,
    out: &mut String,
) -> Result<(), AllocError>
    ensures { OnOk result (string_bytes out.new
        ≡ string_bytes out.old ++ meant.expression_text (written_path names.now)
        (or_true (slice_get (map (truth_view (written_leaves names.now)) tests.now) number))) }
{
    match tests.get(number) {
        Some(test) => push_truth_of(test, names, out),
        None => push_truth(true, out),
    }
}
