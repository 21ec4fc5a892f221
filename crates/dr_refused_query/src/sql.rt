//! Query texts.

ghost use Rattle.dr_meaning.specs.Parse.{parse_query};
ghost use Rattle.dr_sql.specs.Faults.{Gives};
ghost use Rattle.dr_sql.specs.Views.{query_view};

use dr_sql::{Query, QueryFault, parse};
use std::alloc::Global;

/// As `parse`.
pub fn query_of<'a>(alloc: Global, text: &'a str) -> Result<Query<'a>, QueryFault>
    ensures { Gives query_view (parse_query text.now) result }
{
    parse(alloc, text)
}
