//! The records that are kept, as columns.

ghost use Rattle.std.specs.Prelude.{◌≡◌, ◌<◌, List, [], IfOk, OnOk};
ghost use Rattle.dr_meaning.specs.Path.{leaves};
ghost use Rattle.dr_meaning.specs.Record.{Node};
ghost use Rattle.dr_meaning.specs.JsonRecord.{record_of_line};
ghost use Rattle.dr_formats.specs.File.{IsFileOf};
ghost use Rattle.dr_nested.specs.SchemaView.{schema_view};
ghost use Rattle.dr_striper.specs.Striping.{leaves_of};
ghost use Rattle.dr_striper.specs.Stripers.{striped, striped_leaves, striped_paths};
ghost use Rattle.dr_input.specs.Striped.{TakesRecords};
ghost use Rattle.dr_session.specs.Held.{IsKept, KeepsSome};
ghost use Rattle.dr_session.specs.Keeping.{kept_record, KeepsRecord, StripesRecord};

use crate::fault::{HearFault, SessionProblem};
use dr_json::line_record;
use dr_memory::NoMemory;
use dr_nested::{Path, Schema};
use dr_page::PageForm;
use dr_striper::Striper;
use dr_write::write_file_as;
use json::Scratch;
use std::alloc::Global;
use std::mem;

/// As many records as are published together at most.
pub(crate) const MOST_KEPT: u32 = 1_000_000;

/// The records that are kept since the last publish, as columns. No record is held as a tree.
#[derive(Drop)]
pub(crate) struct Kept<'s> {
    // The leaves of the schema, in its order.
    pub(crate) fields: &'s [Path],
    pub(crate) striper: Striper<'s>,
    pub(crate) scratch: Scratch,
    pub(crate) count: u32,
}

impl<'s> Kept<'s> {
    /// No records, of a schema with these leaves.
    pub(crate) fn new(
        alloc: Global,
        schema: &Schema,
        fields: &'s [Path],
    ) -> Result<Kept<'s>, NoMemory>
        requires { leaves_of fields.now ≡ leaves (schema_view schema.now).fields }
        ensures { IfOk result (λ k. IsKept (schema_view schema.now) [] k) }
    {
        let striper = Striper::new(alloc, fields)?;
        Ok(Kept {
            fields,
            striper,
            scratch: Scratch::new(alloc),
            count: 0,
        })
    }

    /// Keeps the record of a line.
    pub(crate) fn keep(
        &mut self,
        alloc: Global,
        schema: &Schema,
        line: &[u8],
    ) -> Result<(), HearFault>
        requires kept { KeepsSome (schema_view schema.now) self.old }
        ensures { (R : List Node) → IsKept (schema_view schema.now) R self.old → KeepsRecord (schema_view schema.now) R
            (kept_record R (record_of_line (schema_view schema.now).fields line.now)) self.new result }
    {
        if self.count >= MOST_KEPT {
            return Err(HearFault::Refused(SessionProblem::TooManyRecords));
        }
        match stripe_line(alloc, schema, line, &mut self.scratch, &mut self.striper) {
            Ok(()) => {
                self.count += 1;
                Ok(())
            }
            Err(fault) => Err(fault),
        }
    }

    /// The file of the records that are kept. Then none is.
    pub(crate) fn file(&mut self, alloc: Global, schema: &Schema) -> Result<Vec<u8>, NoMemory>
        requires kept { KeepsSome (schema_view schema.now) self.old }
        ensures file { (R : List Node) → IsKept (schema_view schema.now) R self.old → IfOk result (λ b. IsFileOf b.items
            (schema_view schema.now) (leaves (schema_view schema.now).fields) R) }
        ensures none { OnOk result (IsKept (schema_view schema.now) [] self.new) }
    {
        let next = Striper::new(alloc, self.fields)?;
        let columns = mem::replace(&mut self.striper, next).finish(alloc)?;
        let count = mem::replace(&mut self.count, 0);
        write_file_as(alloc, PageForm::V1, schema, &columns, u64::from(count))
    }
}

/// Appends the record of a line to the columns of a striper.
fn stripe_line(
    alloc: Global,
    schema: &Schema,
    line: &[u8],
    scratch: &mut Scratch,
    striper: &mut Striper<'_>,
) -> Result<(), HearFault>
    requires fits { TakesRecords (schema_view schema.now).fields (striped_leaves striper.old) }
    ensures record { StripesRecord (schema_view schema.now).fields
        (record_of_line (schema_view schema.now).fields line.now) (striped_paths striper.old) (striped striper.old)
        (striped striper.new) result }
    ensures leaves { striped_leaves striper.new ≡ striped_leaves striper.old }
{
    let record = line_record(alloc, schema, line, scratch)?;
    record.stripe(striper)?;
    Ok(())
}
