//! Binding paths to leaves.

ghost use Rattle.std.specs.Prelude.{◌≡◌, ◌∷◌, [], List, map, true, string_bytes, IfOk};
ghost use Rattle.std.specs.List.{slice_get};
ghost use Rattle.dr_meaning.specs.Path.{Leaf};
ghost use Rattle.dr_meaning.specs.Expression.{path_value};
ghost use Rattle.dr_meaning.specs.BoundExpression as meant;
ghost use Rattle.dr_nested.specs.PathView.{path_view};
ghost use Rattle.dr_nested.specs.Views.{kind_view};
ghost use Rattle.dr_plan.specs.Views.{expr_view, leaf_value};
ghost use Rattle.dr_plan.specs.Fitting.{expr_fits, leaf_has_type};
ghost use Rattle.dr_sql.specs.Views as syntax;
ghost use Rattle.dr_paths.specs.Views.{bound_path_view};
ghost use Rattle.dr_resolve.specs.Faults.{first_view};
ghost use Rattle.dr_resolve.specs.Bound.{IsAmong, type_of};
ghost use Rattle.dr_resolve.specs.Outcomes.{BindsAs, IsPath, fields_in, leaves_in};
ghost use Rattle.dr_sql.specs.Views.{lent};

use crate::bound::BoundExpression;
use crate::fault::{BindProblem, FirstFault};
use crate::names::Binder;
use crate::numbers::leaf_number;
use crate::resolving::{End, resolve};
use dr_memory::NoMemory;
use dr_nested::{Kind, Path};
use dr_paths::BoundPath;
use dr_plan::{Expr, Number, TextOf, Truth};
use std::alloc::Global;

/// Names of a query's text, kept.
fn kept_names(alloc: Global, names: &[&str]) -> Result<Vec<String>, NoMemory>
    ensures { IfOk result (λ v. map string_bytes v.items ≡ map lent names.now) }
{
    let mut kept = Vec::with_capacity(alloc, names.len())?;
    'names: for name in names {
        kept.push(String::from_str(alloc, name)?)?;
    }
    Ok(kept)
}

/// The value of the leaf of this number.
fn value_of_leaf(kind: Kind, number: u32) -> Expr
    ensures typed { type_of result ≡ meant.kind_type (kind_view kind) }
    ensures view { (ls : List Leaf) → expr_view ls result ≡ leaf_value ls number }
    ensures fits { (ls : List Leaf) → expr_fits ls result
        ≡ leaf_has_type (meant.kind_type (kind_view kind)) (slice_get ls number) }
{
    match kind {
        Kind::Bool => Expr::Truth(Truth::Leaf(number)),
        Kind::I32 | Kind::I64 => Expr::Number(Number::Leaf(number)),
        Kind::Text => Expr::Text(TextOf::Leaf(number)),
    }
}

impl Binder<'_> {
    /// A path that is to lead to a leaf. Where it leads to none, that is noted.
    ///
    /// Errors: want of memory alone.
    pub(crate) fn path(
        self,
        path: &dr_sql::Path<'_>,
        first: &mut FirstFault,
    ) -> Result<Option<BoundPath>, NoMemory>
        ensures { IfOk result (BindsAs IsPath (first_view first.old) (first_view first.new)
            (meant.bind_path (fields_in self.entry) (syntax.path_view path.now))) }
    {
        let place = path.place;
        let Some(found) = resolve(self.alloc, &self.schema.fields, &path.names)? else {
            first.note(place, BindProblem::UnknownField);
            return Ok(None);
        };
        match found.end {
            End::Group(_) => {
                first.note(place, BindProblem::NotALeaf);
                Ok(None)
            }
            End::Leaf(kind) => {
                let names = kept_names(self.alloc, &path.names)?;
                let steps = found.steps;
                let leaf = Path { names, steps, kind };
                Ok(Some(BoundPath { place, leaf }))
            }
        }
    }

    /// The value of a bound path.
    ///
    /// Errors: want of memory alone.
    pub(crate) fn value_at(self, path: BoundPath) -> Result<BoundExpression, NoMemory>
        ensures gives { IfOk result (λ x. type_of x.expression.value ≡ meant.kind_type (path_view path.leaf).kind) }
        ensures alone { IfOk result (λ x. x.is_path ≡ true) }
        ensures paths { IfOk result (λ x. map bound_path_view x.paths.items ≡ bound_path_view path ∷ []) }
        ensures view { IfOk result (λ x. IsAmong (leaves_in self.entry) (path_view path.leaf)
            → expr_view (leaves_in self.entry) x.expression.value ≡ path_value (path_view path.leaf).path) }
        ensures fits { IfOk result (λ x. IsAmong (leaves_in self.entry) (path_view path.leaf)
            → expr_fits (leaves_in self.entry) x.expression.value ≡ true) }
    {
        let number = leaf_number(self.leaves, &path.leaf.steps);
        let kind = path.leaf.kind;
        let mut paths = Vec::new(self.alloc);
        paths.push(path)?;
        Ok(BoundExpression {
            expression: Box::new(self.alloc, value_of_leaf(kind, number))?,
            paths,
            is_path: true,
        })
    }
}
