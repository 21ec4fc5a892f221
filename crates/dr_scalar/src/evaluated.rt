//! The values of expressions.

ghost use Rattle.std.specs.Prelude.{◌≡◌, IfOk, option_map};
ghost use Rattle.dr_levels.specs.Views.{lent_value};
ghost use Rattle.dr_scalar.specs.OverSlots.{expr_over};
ghost use Rattle.dr_scalar.specs.Slots.{slot_value};
ghost use Rattle.dr_scalar.specs.Views.{evaluated_view};

use crate::numbers::number_of;
use crate::texts::text_of;
use crate::truths::truth_of;
use dr_levels::ValueRef;
use dr_memory::NoMemory;
use dr_plan::Expr;
use std::alloc::Global;
use std::borrow::CowStr;

/// What an expression gives where it isn't NULL. A text is lent where it is a leaf's or a literal.
#[derive(Drop)]
pub enum Evaluated<'v> {
    Bool(bool),
    Int(i64),
    Text(CowStr<'v, Global>),
}

impl<'v> Evaluated<'v> {
    /// The value, lent.
    #[inline(always)]
    pub fn lend(&self) -> ValueRef<'_>
        ensures { lent_value result ≡ evaluated_view self.now }
    {
        match self {
            Evaluated::Bool(truth) => ValueRef::Bool(*truth),
            Evaluated::Int(number) => ValueRef::Int(*number),
            Evaluated::Text(text) => ValueRef::Text(text.as_str()),
        }
    }
}

/// An expression's value, where it isn't NULL.
///
/// Errors: want of memory alone.
#[inline(always)]
pub(crate) fn value_of<'v>(
    alloc: Global,
    expression: &'v Expr,
    row: &[Option<ValueRef<'v>>],
) -> Result<Option<Evaluated<'v>>, NoMemory>
    ensures { IfOk result (λ v. option_map evaluated_view v ≡ expr_over (slot_value row.now) expression.now) }
{
    match expression {
        Expr::Truth(truth) => match truth_of(alloc, truth, row)? {
            Some(value) => Ok(Some(Evaluated::Bool(value))),
            None => Ok(None),
        },
        Expr::Number(number) => match number_of(number, row) {
            Some(value) => Ok(Some(Evaluated::Int(value))),
            None => Ok(None),
        },
        Expr::Text(text) => match text_of(alloc, text, row)? {
            Some(value) => Ok(Some(Evaluated::Text(value))),
            None => Ok(None),
        },
    }
}
