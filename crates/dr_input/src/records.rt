//! The records of an input.

ghost use Rattle.std.specs.Prelude.{◌≡◌, ◌≢◌, ◌≤◌, ◌<◌, ◌+◌, ◌^◌, ℕ, List, Option, None, Some, Ok, Err, true, false, IfOk, IfErr, IfSome, OnOk};
ghost use Rattle.dr_meaning.specs.JsonRecord.{record_of_line};
ghost use Rattle.dr_nested.specs.Views.{fields_view};
ghost use Rattle.dr_json.specs.Parts.{line_fields};
ghost use Rattle.dr_striper.specs.Stripers.{striped, striped_leaves};
ghost use Rattle.dr_lines.specs.Cutting.{rest_of, fault_of as line_fault_of, IsEnd};
ghost use Rattle.dr_input.specs.Stops.{ReadsLine, NextStops, line_fault_in};
ghost use Rattle.dr_input.specs.Striped.{TakesRecords, StripesBytes, GainsNext, ReadsNext};
ghost use Rattle.dr_input.specs.Records.{fields_read, fields_of, most_of, number_of, fault_of, left_of};

use crate::fault::{InputFault, LineProblem};
use crate::reader::{LineReader, Records};
use dr_json::{LineRecord, RecordFault, line_record};
use dr_lines::{LineFault, Lines};
use dr_memory::NoMemory;
use dr_nested::Schema;
use dr_outside::Source;
use dr_striper::Striper;
use json::Scratch;
use std::alloc::Global;

/// The record of the line of this number.
fn read_record<'r>(
    alloc: Global,
    schema: &'r Schema,
    line: &'r [u8],
    scratch: &'r mut Scratch,
    number: u64,
) -> Result<LineRecord<'r>, InputFault>
    ensures record { ReadsLine (record_of_line (fields_view (schema.now).fields.items) line.now) number result }
    ensures fields { IfOk result (λ r. line_fields r ≡ fields_view (schema.now).fields.items) }
{
    match line_record(alloc, schema, line, scratch) {
        Ok(record) => Ok(record),
        Err(RecordFault::NoMemory) => Err(InputFault::NoMemory),
        Err(RecordFault::Refused(problem)) => Err(InputFault::Refused {
            line: number,
            problem: LineProblem::Record(problem),
        }),
    }
}

/// Appends the record of the line of this number to the columns of a striper. A line that is refused leaves nothing.
fn stripe_line(
    alloc: Global,
    schema: &Schema,
    line: &[u8],
    scratch: &mut Scratch,
    number: u64,
    striper: &mut Striper<'_>,
) -> Result<(), InputFault>
    requires fits { TakesRecords (fields_view (schema.now).fields.items) (striped_leaves striper.old) }
    ensures record { StripesBytes (fields_view (schema.now).fields.items) line.now number striper.old striper.new
        result }
    ensures leaves { striped_leaves striper.new ≡ striped_leaves striper.old }
{
    let record = read_record(alloc, schema, line, scratch, number)?;
    record.stripe(striper)?;
    Ok(())
}

/// Why there is no line of this number.
fn no_line(fault: LineFault, number: u64) -> InputFault
    ensures { result ≡ line_fault_in fault number }
{
    match fault {
        LineFault::ReadFault => InputFault::Source,
        LineFault::TooLong => InputFault::Refused {
            line: number,
            problem: LineProblem::TooLong,
        },
    }
}

/// Appends the record of the next line, behind so many of at most this many lines, to the columns of a striper; false
/// where no line is left.
fn stripe_next_line<S: Source>(
    reader: &mut LineReader<'_>,
    lines: &mut Lines,
    number: u64,
    most: u64,
    source: &mut S,
    striper: &mut Striper<'_>,
) -> Result<bool, InputFault>
    requires going { line_fault_of lines.old ≡ None }
    requires few { number < 2 ^ 63 }
    requires fits { TakesRecords (fields_read reader.old) (striped_leaves striper.old) }
    ensures record { IfOk result (λ more. more ≡ true → GainsNext (fields_read reader.old) most number
        (rest_of lines.old (S.shows source.old).left) (rest_of lines.new (S.shows source.new).left)
        striper.old striper.new) }
    ensures within { IfOk result (λ more. more ≡ true → number + 1 ≤ most) }
    ensures end { IfOk result (λ more. more ≡ false
        → IsEnd (rest_of lines.old (S.shows source.old).left) (rest_of lines.new (S.shows source.new).left)) }
    ensures kept { result ≢ Ok true → striped striper.new ≡ striped striper.old }
    ensures leaves { striped_leaves striper.new ≡ striped_leaves striper.old }
    ensures same_fields { fields_read reader.new ≡ fields_read reader.old }
    ensures goes_on { OnOk result (line_fault_of lines.new ≡ None) }
    ensures calm { OnOk result ((S.shows source.new).faults ≡ (S.shows source.old).faults) }
    ensures stops { IfErr result (NextStops (fields_read reader.old) most number
        (rest_of lines.old (S.shows source.old).left) (S.shows source.old) (S.shows source.new)) }
{
    match lines.next(source) {
        Err(fault) => Err(no_line(fault, number + 1)),
        Ok(false) => Ok(false),
        Ok(true) if number >= most => Err(InputFault::Refused {
            line: number + 1,
            problem: LineProblem::TooManyRecords,
        }),
        Ok(true) => {
            let line = lines.line();
            let scratch = &mut reader.scratch;
            stripe_line(
                reader.alloc,
                reader.schema,
                line,
                scratch,
                number + 1,
                striper,
            )?;
            Ok(true)
        }
    }
}

impl<'s> Records<'s> {
    /// A reader that has read nothing, of the records of a schema in at most so many lines.
    ///
    /// Errors: want of memory alone.
    pub fn new(alloc: Global, schema: &'s Schema, most: u64) -> Result<Records<'s>, NoMemory>
        requires { most < 2 ^ 63 }
        ensures fields { IfOk result (λ r. fields_of r ≡ fields_view (schema.now).fields.items) }
        ensures most { IfOk result (λ r. most_of r ≡ most) }
        ensures number { IfOk result (λ r. number_of r ≡ 0) }
        ensures fault { IfOk result (λ r. fault_of r ≡ None) }
        ensures left { (left : Option (List ℕ)) → IfOk result (λ r. left_of r left ≡ left) }
    {
        let lines = Lines::new(alloc)?;
        Ok(Records {
            reader: LineReader {
                alloc,
                schema,
                scratch: Scratch::new(alloc),
            },
            most,
            lines,
            number: 0,
            stopped: None,
        })
    }

    /// Appends the record of the next line to the columns of a striper, each leaf of which takes what any record of the
    /// schema gives it; false where no line is left.
    ///
    /// The source is the same at each call. Errors: the next line is refused; the source failed, and each whole line
    /// that it gave before is a record; want of memory, or of room for texts. After an error the columns are as they
    /// were, and it is repeated.
    pub fn stripe_next<S: Source>(
        &mut self,
        source: &mut S,
        striper: &mut Striper<'_>,
    ) -> Result<bool, InputFault>
        requires fits { TakesRecords (fields_of self.old) (striped_leaves striper.old) }
        ensures record { IfOk result (λ more. more ≡ true → ReadsNext self.old self.new
            (S.shows source.old).left (S.shows source.new).left striper.old striper.new) }
        ensures counts { IfOk result (λ more. more ≡ true → number_of self.new ≡ number_of self.old + 1) }
        ensures end { IfOk result (λ more. more ≡ false
            → IsEnd (left_of self.old (S.shows source.old).left) (left_of self.new (S.shows source.new).left)) }
        ensures same_number { IfOk result (λ more. more ≡ false → number_of self.new ≡ number_of self.old) }
        ensures kept { result ≢ Ok true → striped striper.new ≡ striped striper.old }
        ensures leaves { striped_leaves striper.new ≡ striped_leaves striper.old }
        ensures calm { OnOk result ((S.shows source.new).faults ≡ (S.shows source.old).faults) }
        ensures stops { fault_of self.old ≡ None → IfErr result (NextStops (fields_of self.old) (most_of self.old)
            (number_of self.old) (left_of self.old (S.shows source.old).left) (S.shows source.old) (S.shows
            source.new)) }
        ensures same_fields { fields_of self.new ≡ fields_of self.old }
        ensures same_most { most_of self.new ≡ most_of self.old }
        ensures within { number_of self.new ≤ most_of self.new }

        // After an error the source isn't asked again.
        ensures stays_stopped { IfErr result (λ e. fault_of self.new ≡ Some e) }
        ensures repeats { IfSome (fault_of self.old) (λ e. result ≡ Err e) }
        ensures rests { IfSome (fault_of self.old) (λ _. source.new ≡ source.old) }
        ensures goes_on { OnOk result (fault_of self.new ≡ None) }
    {
        if let Some(fault) = self.stopped {
            return Err(fault);
        }
        match stripe_next_line(
            &mut self.reader,
            &mut self.lines,
            self.number,
            self.most,
            source,
            striper,
        ) {
            Ok(true) => {
                self.number += 1;
                Ok(true)
            }
            Ok(false) => Ok(false),
            Err(fault) => {
                self.stopped = Some(fault);
                Err(fault)
            }
        }
    }
}
