//! Binding the parts of a query, each by itself.

ghost use Rattle.std.specs.Prelude.{◌≡◌, map, IfOk, OnOk};
ghost use Rattle.dr_meaning.specs.Syntax.{ItemSyntax};
ghost use Rattle.std.specs.List.{list_all};
ghost use Rattle.dr_meaning.specs.Binding as binding;
ghost use Rattle.dr_sql.specs.Views as syntax;
ghost use Rattle.dr_resolve.specs.Faults.{Notes};
ghost use Rattle.dr_resolve.specs.Outcomes.{fields_in, leaves_in};
ghost use Rattle.dr_resolve.specs.Parts.{AreParts};

use crate::bound::BoundParts;
use crate::fault::FirstFault;
use crate::names::Binder;
use dr_memory::NoMemory;
use dr_sql::{Item, Query, Term};

/// Whether a term may stand in a record query: it is no aggregate, or has WITHIN.
fn is_of_record(term: &Term<'_>) -> bool
    ensures { result ≡ binding.is_of_record (syntax.term_view term.now) }
{
    match term {
        Term::Expression(_) => true,
        Term::CountRows(within) => within.is_some(),
        Term::Aggregate(_, _, within) => within.is_some(),
    }
}

/// Whether the terms of all items may stand in a record query.
fn are_of_record(items: &[Item<'_>]) -> bool
    ensures { result ≡ list_all (λ (i : ItemSyntax). binding.is_of_record i.term) (map syntax.item_view items.now) }
{
    'items: for item in items {
        if !is_of_record(&item.term) {
            return false;
        }
    }
    true
}

/// Whether a query is a record query: it has no keys, and each aggregate has WITHIN.
fn is_record_query(query: &Query<'_>) -> bool
    ensures { result ≡ binding.is_record_syntax (syntax.query_view query.now) }
{
    query.keys.is_empty() && are_of_record(&query.items)
}

impl Binder<'_> {
    /// The parts of a query. What keeps them from being bound is noted.
    ///
    /// Errors: want of memory alone.
    pub fn parts(self, query: &Query<'_>, first: &mut FirstFault) -> Result<BoundParts, NoMemory>
        ensures parts { IfOk result (λ p. AreParts (fields_in self.entry) (leaves_in self.entry)
            (binding.bind_parts (fields_in self.entry) (syntax.query_view query.now)) p) }
        ensures first { OnOk result (Notes
            (binding.part_faults (binding.bind_parts (fields_in self.entry) (syntax.query_view query.now))) first.old
            first.new) }
    {
        let condition = self.condition(&query.condition, first)?;
        let mut arguments = Vec::new(self.alloc);
        let items = self.items(&query.items, &mut arguments, first)?;
        let keys = self.keys(&query.keys, first)?;
        let has_all_keys = keys.len() == query.keys.len();
        let is_record_query = is_record_query(query);
        Ok(BoundParts {
            is_record_query,
            condition,
            items,
            arguments,
            keys,
            has_all_keys,
        })
    }
}
