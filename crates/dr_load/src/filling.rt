//! Striping the records of one tablet.

ghost use Rattle.std.specs.Prelude.{◌≡◌, ◌≢◌, ◌≤◌, ◌<◌, ◌+◌, [], Some, None, Err, true, false, MatchOption, ⊤, IfOk, IfErr, OnOk};
ghost use Rattle.dr_meaning.specs.Path.{leaves};
ghost use Rattle.dr_levels.specs.Views.{forms_view};
ghost use Rattle.dr_striper.specs.Striping.{leaves_of, forms_of};
ghost use Rattle.dr_outside.specs.Faults.{raised};
ghost use Rattle.dr_input.specs.Taken.{WhereTold, AcceptsRead};
ghost use Rattle.dr_input.specs.Records.{fields_of, most_of, number_of, fault_of, left_of};
ghost use Rattle.dr_load.specs.Faults.{refusal_of};
ghost use Rattle.dr_load.specs.Filled.{FillsTablet, RefusesWithin, FailsWithin};

use crate::fault::LoadFault;
use crate::filled::Filled;
use dr_input::Records;
use dr_nested::Path;
use dr_outside::Source;
use dr_striper::Striper;
use std::alloc::Global;

/// Stripes the next records of the input, until there are as many as a tablet has, or no line is left.
pub(crate) fn fill_tablet<S: Source>(
    alloc: Global,
    fields: &[Path],
    records: &mut Records<'_>,
    rows: u32,
    source: &mut S,
) -> Result<Filled, LoadFault>
    requires going { fault_of records.old ≡ None }
    requires leaves { leaves_of fields.now ≡ leaves (fields_of records.old) }
    ensures fills { IfOk result (λ f. FillsTablet (fields_of records.old) (most_of records.old) (number_of records.old)
        (left_of records.old (S.shows source.old).left) (left_of records.new (S.shows source.new).left) f) }
    ensures forms { IfOk result (λ f. forms_view f.columns.items ≡ forms_of (leaves (fields_of records.old))) }
    ensures full { IfOk result (λ f. f.ended ≡ false → f.records ≡ rows) }
    ensures part { IfOk result (λ f. f.ended ≡ true → f.records < rows) }
    ensures end { IfOk result (λ f. f.ended ≡ true
        → WhereTold (left_of records.old (S.shows source.old).left) (λ _. left_of records.new (S.shows source.new).left
        ≡ Some [])) }
    ensures few { IfOk result (λ f. number_of records.old + f.records ≤ most_of records.old) }
    ensures number { IfOk result (λ f. number_of records.new ≡ number_of records.old + f.records) }
    ensures same_fields { OnOk result (fields_of records.new ≡ fields_of records.old) }
    ensures same_most { OnOk result (most_of records.new ≡ most_of records.old) }
    ensures goes_on { OnOk result (fault_of records.new ≡ None) }
    ensures refuses { IfErr result (λ e. MatchOption (refusal_of e) ⊤
        (RefusesWithin (fields_of records.old) (most_of records.old) (number_of records.old) rows
        (left_of records.old (S.shows source.old).left))) }
    ensures accepts { result ≡ Err LoadFault.ReadFault
        → AcceptsRead (fields_of records.old) (most_of records.old) (number_of records.old)
        (left_of records.old (S.shows source.old).left) (S.shows source.new).left }
    ensures fails { result ≡ Err LoadFault.ReadFault
        → FailsWithin (fields_of records.old) (most_of records.old) (number_of records.old) rows
        (left_of records.old (S.shows source.old).left) (S.shows source.new).left }
    ensures cause { result ≡ Err LoadFault.ReadFault → (S.shows source.new).faults
        ≡ raised (S.shows source.old).faults }
    ensures calm { result ≢ Err LoadFault.ReadFault → (S.shows source.new).faults ≡ (S.shows source.old).faults }
    ensures keeper { result ≢ Err LoadFault.KeepFault }
{
    let mut striper = Striper::new(alloc, fields)?;
    'lines: for count in 0..rows {
        let more = records.stripe_next(source, &mut striper)?;
        if !more {
            return Ok(Filled {
                columns: striper.finish(alloc)?,
                records: count,
                ended: true,
            });
        }
    }
    Ok(Filled {
        columns: striper.finish(alloc)?,
        records: rows,
        ended: false,
    })
}
