//! What items give.

ghost use Rattle.std.specs.Prelude.{◌≡◌, ◌++◌, [], map, string_bytes, OnOk};
ghost use Rattle.dr_nested.specs.PathView.{step_view};
ghost use Rattle.dr_partials.specs.RewritingText as meant;
ghost use Rattle.dr_plan.specs.Views.{aggregate_view, expr_view, fold_view, record_term_view};
ghost use Rattle.dr_rewrite.specs.Items.{merging_word};
ghost use Rattle.dr_rewrite.specs.Writing.{written_leaves, written_path};

use crate::expressions::push_expression;
use crate::paths::{Names, push_path};
use dr_nested::Step;
use dr_plan::{Aggregate, Expr, Fold, RecordTerm};
use std::alloc::AllocError;

/// The word of an aggregate.
fn word_of(fold: Fold) -> &'static str
    ensures { result.now ≡ meant.aggregate_word (fold_view fold) }
{
    match fold {
        Fold::Count => "COUNT",
        Fold::Sum => "SUM",
        Fold::Least => "MIN",
        Fold::Greatest => "MAX",
    }
}

/// The word of the aggregate that merges what another has gathered: counts are merged by SUM, all else by itself.
pub(crate) fn merging_word_of(aggregate: &Aggregate) -> &'static str
    ensures { result.now ≡ merging_word aggregate.now }
{
    match aggregate {
        Aggregate::Rows => "SUM",
        Aggregate::Of(Fold::Count, _) => "SUM",
        Aggregate::Of(fold, _) => word_of(*fold),
    }
}

/// Appends an aggregate of an expression.
fn push_fold(
    fold: Fold,
    argument: &Expr,
    names: &Names<'_>,
    out: &mut String,
) -> Result<(), AllocError>
    ensures { OnOk result (string_bytes out.new
        ≡ string_bytes out.old ++ meant.aggregate_text (written_path names.now) (fold_view fold)
        (expr_view (written_leaves names.now) argument.now)) }
{
    out.push_str(word_of(fold))?;
    out.push_str("(")?;
    push_expression(argument, names, out)?;
    out.push_str(")")
}

/// Appends an aggregate over the rows of a group.
pub(crate) fn push_aggregate(
    aggregate: &Aggregate,
    names: &Names<'_>,
    out: &mut String,
) -> Result<(), AllocError>
    ensures { OnOk result (string_bytes out.new
        ≡ string_bytes out.old ++ meant.group_term_text (written_path names.now) []
        (aggregate_view (written_leaves names.now) aggregate.now)) }
{
    match aggregate {
        Aggregate::Rows => out.push_str("COUNT(*)"),
        Aggregate::Of(fold, argument) => push_fold(*fold, argument, names, out),
    }
}

/// Appends the node of WITHIN.
fn push_node(node: &[Step], names: &Names<'_>, out: &mut String) -> Result<(), AllocError>
    ensures { OnOk result (string_bytes out.new
        ≡ string_bytes out.old ++ meant.node_text (written_path names.now) (map step_view node.now)) }
{
    match node {
        [] => out.push_str("RECORD"),
        _ => push_path(names, node, out),
    }
}

/// Appends what an item of a record query gives.
pub(crate) fn push_record_term(
    term: &RecordTerm,
    names: &Names<'_>,
    out: &mut String,
) -> Result<(), AllocError>
    ensures { OnOk result (string_bytes out.new
        ≡ string_bytes out.old ++ meant.record_term_text (written_path names.now)
        (record_term_view (written_leaves names.now) term.now)) }
{
    match term {
        RecordTerm::Value(value) => push_expression(value, names, out),
        RecordTerm::Within(within) => {
            push_fold(within.fold, &within.argument, names, out)?;
            out.push_str(" WITHIN ")?;
            push_node(&within.node, names, out)
        }
    }
}
