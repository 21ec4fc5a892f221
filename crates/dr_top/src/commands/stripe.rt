//! The answer of `stripe`.

ghost use Rattle.std.specs.Prelude.{◌≡◌, ◌∷◌, [], Some, true, length, IfOk, IfErr, OnOk};
ghost use Rattle.dr_meaning.specs.Stripe.{most_striped};
ghost use Rattle.dr_nested.specs.Views.{fields_view};
ghost use Rattle.dr_nested.specs.PathView.{path_view};
ghost use Rattle.dr_levels.specs.Views.{column_view};
ghost use Rattle.dr_striper.specs.Stripers.{striped, striped_leaves};
ghost use Rattle.dr_striper.specs.Leaves.{is_leaf};
ghost use Rattle.dr_commands.specs.Meaning.{done};
ghost use Rattle.dr_commands.specs.Stripe.{stripe_meaning, stripe_view};
ghost use Rattle.dr_top.specs.Printed.{printed};
ghost use Rattle.dr_top.specs.World.{Opens, outcome_on};
ghost use Rattle.dr_top.specs.Stops.{StopsReading, InputStops, IsReadBy};
ghost use Rattle.dr_top.specs.Records.{HasColumns};
ghost use Rattle.dr_input.specs.Taken.{WhereTold};

use crate::field::find_field;
use crate::output::Output;
use crate::stop::Stop;
use dr_commands::MOST_STRIPED;
use dr_commands::commands::Stripe;
use dr_input::{InputFault, Records};
use dr_levels::Column;
use dr_nested::{NoMemory, Path, Schema, parse_schema};
use dr_outside::Source;
use dr_print::column_text;
use dr_striper::Striper;
use std::alloc::Global;
use std::slice;

/// The only column of a striper of one leaf.
fn only_column(alloc: Global, striper: Striper<'_>) -> Result<Column, NoMemory>
    requires { length (striped_leaves striper) ≡ 1 }
    ensures { IfOk result (λ c. striped striper.entry ≡ column_view c ∷ []) }
{
    match striper.finish(alloc)?.pop() {
        Some(column) => Ok(column),
        None => unreachable!(),
    }
}

/// The column of a leaf in the records of the input, which is read to its end.
///
/// Errors: the first line that is refused; the source failed, and no whole line that it gave before is refused; want of
/// memory.
fn stripe_records<S: Source>(
    alloc: Global,
    schema: &Schema,
    field: &Path,
    source: &mut S,
) -> Result<Column, InputFault>
    requires { is_leaf (fields_view (schema.now).fields.items) (path_view field.now) ≡ true }
    ensures columns { IfOk result (λ c. HasColumns (fields_view (schema.now).fields.items)
        ((path_view field.now).path ∷ []) (S.shows source.old).left (column_view c ∷ [])) }
    ensures end { OnOk result (WhereTold (S.shows source.old).left (λ _. (S.shows source.new).left ≡ Some [])) }
    ensures calm { OnOk result ((S.shows source.new).faults ≡ (S.shows source.old).faults) }
    ensures stops { IfErr result (InputStops (fields_view (schema.now).fields.items) most_striped (S.shows source.old)
        (S.shows source.new)) }
{
    let mut striper = Striper::new(alloc, slice::from_ref(field))?;
    let mut records = Records::new(alloc, schema, MOST_STRIPED)?;
    'lines: while records.stripe_next(source, &mut striper)? {}
    Ok(only_column(alloc, striper)?)
}

/// The text that `stripe` prints, of its file and the input.
///
/// Errors: the first refusal: the schema, the FIELD, then the input's lines; the source failed; want of memory.
pub fn answer<S: Source>(
    alloc: Global,
    stripe: &Stripe,
    file: &[u8],
    source: &mut S,
) -> Result<Output, Stop>
    ensures text { IfOk result (λ t. WhereTold (S.shows source.old).left
        (λ lines. outcome_on (stripe_meaning (stripe_view stripe.now)) file.now lines ≡ done (printed t) [])) }
    ensures opened { OnOk result (Opens (outcome_on (stripe_meaning (stripe_view stripe.now)) file.now)) }
    ensures read { OnOk result (IsReadBy true (S.shows source.old) (S.shows source.new)) }
    ensures source_calm { OnOk result ((S.shows source.new).faults ≡ (S.shows source.old).faults) }
    ensures stops { IfErr result (StopsReading (outcome_on (stripe_meaning (stripe_view stripe.now)) file.now)
        (S.shows source.old) (S.shows source.new)) }
{
    let schema = parse_schema(alloc, file)?;
    let field = find_field(alloc, &schema, stripe.field.as_str(), 0)?;
    let column = stripe_records(alloc, &schema, &field, source)?;
    let text = column_text(alloc, &column)?;
    Ok(Output::Text(text))
}
