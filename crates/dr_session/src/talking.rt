//! A session over an input: each line's text is written before the next line is read.

ghost use Rattle.std.specs.Prelude.{◌≡◌, ◌≤◌, None, true, false, IfOk, IfErr, OnOk};
ghost use Rattle.dr_meaning.specs.Path.{leaves};
ghost use Rattle.dr_nested.specs.SchemaView.{schema_view};
ghost use Rattle.dr_striper.specs.Striping.{leaves_of};
ghost use Rattle.dr_lines.specs.Cutting.{rest_of, last_line, fault_of as line_fault_of, CutsLine, CutsBytes, IsEnd};
ghost use Rattle.dr_sub_meaning.specs.Session.{new_session, heard, most_lines};
ghost use Rattle.dr_session.specs.Held.{IsSession, HoldsSome};
ghost use Rattle.dr_session.specs.Saying.{CutStops, cut_fault_in};
ghost use Rattle.dr_session.specs.Steps.{SaysFrom};
ghost use Rattle.dr_session.specs.Talking.{TalksToEnd, TalkStops};
ghost use Rattle.dr_session.specs.declared.talking.TalkFault.TheVariants as stops;

use crate::fault::{HearFault, SessionProblem};
use crate::session::{MOST_LINES, Session};
use dr_lines::{LineFault, Lines};
use dr_memory::NoMemory;
use dr_nested::{Path, Schema};
use dr_outside::{Sink, Source, write_all};
use dr_paths::leaf_paths;
use dr_service::{Ground, Room};
use std::alloc::Global;
use std::marker::Brand;
use std::sync::Wait;
use std::thread::Threads;

/// Why a session over an input stops before the input's end.
#[derive(Clone, Copy)]
pub enum TalkFault {
    NoMemory,
    /// The source failed.
    Source,
    /// The sink failed.
    Out,
    /// The line of this number is refused.
    Refused { line: u64, problem: SessionProblem },
}

impl From<NoMemory> for TalkFault {
    ghost from_gives = { λ _ fault. fault ≡ stops.NoMemory };

    fn from(_: NoMemory) -> TalkFault {
        TalkFault::NoMemory
    }
}

/// Why there is no line of this number.
fn no_line(fault: LineFault, number: u64) -> TalkFault
    ensures { result ≡ cut_fault_in fault number }
{
    match fault {
        LineFault::ReadFault => TalkFault::Source,
        LineFault::TooLong => TalkFault::Refused {
            line: number,
            problem: SessionProblem::TooLong,
        },
    }
}

/// Cuts the line of this number, unless it is too long or past the greatest number; false where none is left.
fn cut_line<S: Source>(lines: &mut Lines, number: u64, source: &mut S) -> Result<bool, TalkFault>
    requires going { line_fault_of lines.old ≡ None }
    ensures cuts { IfOk result (λ more. more ≡ true → CutsLine (rest_of lines.old (S.shows source.old).left)
        (last_line lines.new) (rest_of lines.new (S.shows source.new).left)) }
    ensures bytes { IfOk result (λ more. more ≡ true → CutsBytes (rest_of lines.old (S.shows source.old).left)
        (last_line lines.new) (rest_of lines.new (S.shows source.new).left)) }
    ensures end { IfOk result (λ more. more ≡ false
        → IsEnd (rest_of lines.old (S.shows source.old).left) (rest_of lines.new (S.shows source.new).left)) }
    ensures within { IfOk result (λ more. more ≡ true → number ≤ most_lines) }
    ensures goes_on { OnOk result (line_fault_of lines.new ≡ None) }
    ensures calm { OnOk result ((S.shows source.new).faults ≡ (S.shows source.old).faults) }
    ensures stops { IfErr result (CutStops number (rest_of lines.old (S.shows source.old).left) (S.shows source.old)
        (S.shows source.new)) }
{
    match lines.next(source) {
        Err(fault) => Err(no_line(fault, number)),
        Ok(false) => Ok(false),
        Ok(true) if number > MOST_LINES => Err(TalkFault::Refused {
            line: number,
            problem: SessionProblem::TooManyLines,
        }),
        Ok(true) => Ok(true),
    }
}

/// Hears the line of this number, and writes its text.
fn answer_line<B: Room, R: Threads + Wait + Sync, O: Sink>(
    rt: &R,
    session: &mut Session<'_, B>,
    line: &[u8],
    number: u64,
    out: &mut O,
) -> Result<(), TalkFault>
    requires held { HoldsSome B.schema session.old.kept session.old.publisher }
    ensures said { SaysFrom B.schema number (λ w. heard B.schema w number line.now) session.old.kept
        session.old.publisher session.new.kept session.new.publisher (O.shows out.old) (O.shows out.new) result }
{
    match session.hear(rt, number, line) {
        Ok(text) => match write_all(out, text.as_bytes()) {
            Ok(()) => Ok(()),
            Err(_) => Err(TalkFault::Out),
        },
        Err(HearFault::NoMemory) => Err(TalkFault::NoMemory),
        Err(HearFault::Refused(problem)) => Err(TalkFault::Refused {
            line: number,
            problem,
        }),
    }
}

/// Hears each line of an input, and writes its text, before more is read.
///
/// Errors: the first refused line; the source failed; the sink failed; want of memory.
fn talk_lines<B: Room, R: Threads + Wait + Sync, S: Source, O: Sink>(
    rt: &R,
    alloc: Global,
    session: &mut Session<'_, B>,
    source: &mut S,
    out: &mut O,
) -> Result<(), TalkFault>
    requires new { IsSession B.schema new_session session.old.kept session.old.publisher }
    ensures ended { OnOk result (TalksToEnd B.schema (S.shows source.old) (S.shows source.new) (O.shows out.old)
        (O.shows out.new)) }
    ensures stopped { IfErr result (TalkStops B.schema (S.shows source.old) (S.shows source.new) (O.shows out.old)
        (O.shows out.new)) }
{
    let mut lines = Lines::new(alloc)?;
    let mut number = 0;
    'input: while cut_line(&mut lines, number + 1, source)? {
        number += 1;
        answer_line(rt, session, lines.line(), number, out)?;
    }
    Ok(())
}

/// A new session over an input, on this ground.
///
/// Errors: as those of `talk`.
fn talk_on<B: Room, R: Threads + Wait + Sync, S: Source, O: Sink>(
    rt: &R,
    alloc: Global,
    ground: Ground,
    schema: &Schema,
    fields: &[Path],
    source: &mut S,
    out: &mut O,
) -> Result<(), TalkFault>
    requires ground { ground ≡ B.table }
    requires schema { schema_view schema.now ≡ B.schema }
    requires leaves { leaves_of fields.now ≡ leaves B.schema.fields }
    ensures ended { OnOk result (TalksToEnd B.schema (S.shows source.old) (S.shows source.new) (O.shows out.old)
        (O.shows out.new)) }
    ensures stopped { IfErr result (TalkStops B.schema (S.shows source.old) (S.shows source.new) (O.shows out.old)
        (O.shows out.new)) }
{
    let mut session = Session::<B>::new(alloc, ground, schema, fields)?;
    talk_lines(rt, alloc, &mut session, source, out)
}

/// A session of a schema over an input: each line is heard, and its text written, before more is read.
///
/// Errors: the first refused line; the source failed; the sink failed; want of memory. What was written before stays.
pub fn talk<R: Threads + Wait + Sync, S: Source, O: Sink>(
    rt: &R,
    alloc: Global,
    schema: &Schema,
    source: &mut S,
    out: &mut O,
) -> Result<(), TalkFault>
    ensures ended { OnOk result (TalksToEnd (schema_view schema.now) (S.shows source.old) (S.shows source.new)
        (O.shows out.old) (O.shows out.new)) }
    ensures stopped { IfErr result (TalkStops (schema_view schema.now) (S.shows source.old) (S.shows source.new)
        (O.shows out.old) (O.shows out.new)) }
{
    let fields = leaf_paths(alloc, schema)?;
    let ground = Ground::new(alloc)?;
    talk_on::<Brand, R, S, O>(rt, alloc, ground, schema, &fields, source, out)
}
