//! Binding items and keys.

ghost use Rattle.std.specs.Prelude.{◌≡◌, ◌++◌, map, codes, decimal, string_bytes, IfOk, OnOk};
ghost use Rattle.std.specs.List.{flat_map, join_with_byte};
ghost use Rattle.dr_meaning.specs.BoundExpression as meant;
ghost use Rattle.dr_meaning.specs.Binding as binding;
ghost use Rattle.dr_meaning.specs.Syntax.{expression as plain_term};
ghost use Rattle.dr_sql.specs.Views as syntax;
ghost use Rattle.dr_resolve.specs.Faults.{Notes};
ghost use Rattle.dr_resolve.specs.Outcomes.{AppendsIn, Binds, fields_in, leaves_in};
ghost use Rattle.dr_paths.specs.Views.{bound_path_view};
ghost use Rattle.dr_resolve.specs.Items.{AreItems, IsItem};
ghost use Rattle.dr_resolve.specs.Outcomes.{present};
ghost use Rattle.dr_sql.specs.Views.{lent};

use crate::bound::{BoundExpression, BoundItem};
use crate::fault::FirstFault;
use crate::names::Binder;
use dr_memory::NoMemory;
use dr_paths::BoundPath;
use dr_sql::{Expression, Item, Path, Term};
use std::alloc::Global;

/// Names, joined by dots.
fn dotted(alloc: Global, names: &[&str]) -> Result<String, NoMemory>
    ensures { IfOk result (λ s. string_bytes s ≡ join_with_byte 46 (map lent names.now)) }
{
    Ok(names.join(alloc, ".")?)
}

/// The name that an item of a number has where nothing gives it one.
fn numbered(alloc: Global, number: usize) -> Result<String, NoMemory>
    ensures { IfOk result (λ s. string_bytes s ≡ codes "f" ++ decimal number ++ codes "_") }
{
    match format!(in alloc; "f{number}_") {
        Ok(name) => Ok(name),
        Err(_) => Err(NoMemory),
    }
}

/// The name of an item that is an expression without AS: that of its path, or one by its number.
fn expression_name(
    alloc: Global,
    number: usize,
    expression: &Expression<'_>,
) -> Result<String, NoMemory>
    ensures { IfOk result (λ s. string_bytes s
        ≡ binding.own_name number (plain_term (syntax.expression_view expression.now))) }
{
    match expression {
        Expression::Path(path) => dotted(alloc, &path.names),
        Expression::Number(_) | Expression::Text(_) | Expression::Truth(_) => {
            numbered(alloc, number)
        }
        Expression::Negative(_, _) | Expression::IsNull(_, _) | Expression::Not(_, _) => {
            numbered(alloc, number)
        }
        Expression::Like(_, _, _) | Expression::Contains(_, _, _) => numbered(alloc, number),
        Expression::Arithmetic(_, _, _, _) | Expression::Comparison(_, _, _, _) => {
            numbered(alloc, number)
        }
        Expression::And(_, _, _) | Expression::Or(_, _, _) => numbered(alloc, number),
    }
}

/// The name of an item to which AS gives none: that of its path, or one by its number.
fn own_name(alloc: Global, number: usize, term: &Term<'_>) -> Result<String, NoMemory>
    ensures { IfOk result (λ s. string_bytes s ≡ binding.own_name number (syntax.term_view term.now)) }
{
    match term {
        Term::Expression(expression) => expression_name(alloc, number, expression),
        Term::CountRows(_) => numbered(alloc, number),
        Term::Aggregate(_, _, _) => numbered(alloc, number),
    }
}

/// The name that AS gives an item, or its own.
fn item_name(alloc: Global, number: usize, item: &Item<'_>) -> Result<String, NoMemory>
    ensures { IfOk result (λ s. string_bytes s
        ≡ binding.item_name number (syntax.term_view (item.now).term) (syntax.maybe_lent (item.now).name)) }
{
    match item.name {
        Some(name) => Ok(String::from_str(alloc, name)?),
        None => own_name(alloc, number, &item.term),
    }
}

/// Appends a part that could be bound.
fn push_bound<T: Drop>(bound: &mut Vec<T>, part: Option<T>) -> Result<(), NoMemory>
    ensures { OnOk result ((bound.new).items ≡ (bound.old).items ++ present part) }
{
    match part {
        Some(part) => {
            bound.push(part)?;
            Ok(())
        }
        None => Ok(()),
    }
}

impl Binder<'_> {
    /// An item, which has a number among the items. An argument that fails by its WITHIN alone is appended to those
    /// that stand alone.
    ///
    /// Errors: want of memory alone.
    fn item(
        self,
        number: usize,
        item: &Item<'_>,
        alone: &mut Vec<BoundExpression>,
        first: &mut FirstFault,
    ) -> Result<Option<BoundItem>, NoMemory>
        ensures alone { OnOk result (AppendsIn self.entry
            (binding.argument_alone (fields_in self.entry) (item.now).place (syntax.term_view (item.now).term))
            (alone.old).items (alone.new).items) }
        ensures item { IfOk result (Binds self.entry IsItem first.old first.new
            (binding.bind_item (fields_in self.entry) number (syntax.item_view item.now))) }
    {
        let place = item.place;
        match self.term(place, &item.term, alone, first)? {
            None => Ok(None),
            Some(term) => {
                let name = item_name(self.alloc, number, item)?;
                Ok(Some(BoundItem { place, name, term }))
            }
        }
    }

    /// The items that could be bound. The arguments that fail by their WITHIN alone are appended to those that stand
    /// alone.
    ///
    /// Errors: want of memory alone.
    pub(crate) fn items(
        self,
        items: &[Item<'_>],
        alone: &mut Vec<BoundExpression>,
        first: &mut FirstFault,
    ) -> Result<Vec<BoundItem>, NoMemory>
        ensures alone { OnOk result (AppendsIn self.entry
            (binding.arguments_alone (fields_in self.entry) (map syntax.item_view items.now)) (alone.old).items
            (alone.new).items) }
        ensures items { IfOk result (λ v. AreItems (fields_in self.entry) (leaves_in self.entry)
            (binding.passing (binding.bind_items (fields_in self.entry) 0 (map syntax.item_view items.now))) v.items) }
        ensures first { OnOk result (Notes (flat_map binding.faults_in
            (binding.bind_items (fields_in self.entry) 0 (map syntax.item_view items.now))) first.old first.new) }
    {
        let mut bound = Vec::new(self.alloc);
        'items: for (number, item) in items.iter().enumerate() {
            let item = self.item(number, item, alone, first)?;
            push_bound(&mut bound, item)?;
        }
        Ok(bound)
    }

    /// The keys that could be bound.
    ///
    /// Errors: want of memory alone.
    pub(crate) fn keys(
        self,
        keys: &[Path<'_>],
        first: &mut FirstFault,
    ) -> Result<Vec<BoundPath>, NoMemory>
        ensures keys { IfOk result (λ v. map bound_path_view v.items
            ≡ binding.passing (map (meant.bind_path (fields_in self.entry)) (map syntax.path_view keys.now))) }
        ensures first { OnOk result (Notes (flat_map binding.faults_in
            (map (meant.bind_path (fields_in self.entry)) (map syntax.path_view keys.now))) first.old first.new) }
    {
        let mut bound = Vec::new(self.alloc);
        'keys: for key in keys {
            let key = self.path(key, first)?;
            push_bound(&mut bound, key)?;
        }
        Ok(bound)
    }
}
