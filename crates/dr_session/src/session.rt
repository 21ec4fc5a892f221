//! A session, one line after another.

ghost use Rattle.std.specs.Prelude.{◌≡◌, ◌≤◌, ◌++◌, ◌∷◌, [], Ok, length, take, string_bytes, IfOk, IfErr};
ghost use Rattle.std.specs.Str.{IsUtf8};
ghost use Rattle.dr_meaning.specs.Path.{leaves};
ghost use Rattle.dr_nested.specs.SchemaView.{schema_view};
ghost use Rattle.dr_striper.specs.Striping.{leaves_of};
ghost use Rattle.dr_sub.specs.Texts.{ArePlansMeant, IsRefusedAs, ArePlansOver, ForNested};
ghost use Rattle.dr_sub_meaning.specs.NestedAsk as meant;
ghost use Rattle.dr_sub_meaning.specs.Session.{Session as Meant, new_session, heard, keeps, publishes, answers, asked_text};
ghost use Rattle.dr_session.specs.Faults.{Hears};
ghost use Rattle.dr_session.specs.Held.{IsSession, HoldsSome};
ghost use Rattle.dr_session.specs.Steps.{HearsFrom};

use crate::fault::{HearFault, SessionProblem};
use crate::kept::Kept;
use crate::sign::{Sign, sign_of};
use crate::texts::{answer_lines, published_line};
use dr_lines::LONGEST_LINE;
use dr_memory::NoMemory;
use dr_nested::{Path, Schema};
use dr_service::{Asker, Ground, MOST_TABLETS, PublishFault, Publisher, Room, Service};
use dr_sub::{NestedPlan, TextFault, read_nested};
use std::alloc::Global;
use std::str;
use std::sync::Wait;
use std::thread::Threads;

/// The greatest number of lines.
pub(crate) const MOST_LINES: u64 = 10_000_000_000;

/// What a session holds: the service with its one publisher and one asker, and the records that are kept.
#[derive(Drop)]
pub(crate) struct Session<'s, B: Room> {
    pub(crate) alloc: Global,
    pub(crate) service: Service<'s, B>,
    pub(crate) publisher: Publisher<B>,
    pub(crate) asker: Asker<B>,
    pub(crate) kept: Kept<'s>,
}

impl<'s, B: Room> Session<'s, B> {
    /// A session of a schema with these leaves, that has heard nothing.
    ///
    /// Errors: want of memory alone.
    pub(crate) fn new(
        alloc: Global,
        ground: Ground,
        schema: &'s Schema,
        fields: &'s [Path],
    ) -> Result<Session<'s, B>, NoMemory>
        requires ground { ground ≡ B.table }
        requires schema { schema_view schema.now ≡ B.schema }
        requires leaves { leaves_of fields.now ≡ leaves B.schema.fields }
        ensures { IfOk result (λ s. IsSession B.schema new_session s.kept s.publisher) }
    {
        let kept = Kept::new(alloc, schema, fields)?;
        let (service, publisher, mut askers) = Service::new(alloc, ground, schema, 1)?;
        let Some(asker) = askers.pop() else {
            unreachable!();
        };
        Ok(Session {
            alloc,
            service,
            publisher,
            asker,
            kept,
        })
    }

    /// What the line of this number prints.
    ///
    /// Errors: the line is refused; want of memory. Behind an error the session isn't asked again.
    pub(crate) fn hear<R: Threads + Wait + Sync>(
        &mut self,
        rt: &R,
        number: u64,
        line: &[u8],
    ) -> Result<String, HearFault>
        requires held { HoldsSome B.schema self.old.kept self.old.publisher }
        ensures heard { HearsFrom B.schema (λ w. heard B.schema w number line.now)
            self.old.kept self.old.publisher self.new.kept self.new.publisher result }
    {
        if line.len() > LONGEST_LINE {
            return Err(HearFault::Refused(SessionProblem::TooLong));
        }
        if number > MOST_LINES {
            return Err(HearFault::Refused(SessionProblem::TooManyLines));
        }
        match sign_of(line) {
            Sign::Keep => self.keep(&line[1..]),
            Sign::Ask => self.ask(rt, &line[1..]),
            Sign::Publish => self.publish(rt),
            Sign::Nothing => Err(HearFault::Refused(SessionProblem::Command)),
        }
    }

    /// `+RECORD`: keeps a record.
    fn keep(&mut self, line: &[u8]) -> Result<String, HearFault>
        requires held { HoldsSome B.schema self.old.kept self.old.publisher }
        ensures heard { HearsFrom B.schema (λ w. keeps B.schema w line.now)
            self.old.kept self.old.publisher self.new.kept self.new.publisher result }
    {
        let schema = self.service.schema();
        match self.kept.keep(self.alloc, schema, line) {
            Ok(()) => Ok(String::new(self.alloc)),
            Err(fault) => Err(fault),
        }
    }

    /// `.`: publishes the records that are kept, as one file.
    fn publish<R: Wait>(&mut self, rt: &R) -> Result<String, HearFault>
        requires held { HoldsSome B.schema self.old.kept self.old.publisher }
        ensures heard { HearsFrom B.schema publishes
            self.old.kept self.old.publisher self.new.kept self.new.publisher result }
    {
        if self.publisher.count() >= MOST_TABLETS as u64 {
            return Err(HearFault::Refused(SessionProblem::Full));
        }
        let schema = self.service.schema();
        let bytes = match self.kept.file(self.alloc, schema) {
            Ok(bytes) => bytes,
            Err(_) => return Err(HearFault::NoMemory),
        };
        match self
            .service
            .publish(rt, self.alloc, &mut self.publisher, bytes)
        {
            Ok(count) => match published_line(self.alloc, count) {
                Ok(text) => Ok(text),
                Err(_) => Err(HearFault::NoMemory),
            },
            Err(PublishFault::NoMemory) => Err(HearFault::NoMemory),
            Err(PublishFault::Full) => unreachable!(),
            Err(PublishFault::BadTablet(_)) => unreachable!(),
        }
    }

    /// `?QUERY`: asks all that is published.
    fn ask<R: Threads + Wait + Sync>(&mut self, rt: &R, text: &[u8]) -> Result<String, HearFault>
        requires held { HoldsSome B.schema self.old.kept self.old.publisher }
        ensures heard { HearsFrom B.schema (λ w. answers B.schema w (meant.read_nested B.schema (asked_text text.now)))
            self.old.kept self.old.publisher self.new.kept self.new.publisher result }
    {
        let schema = self.service.schema();
        match plans_of(self.alloc, schema, text) {
            Ok(plans) => self.answer(rt, &plans),
            Err(fault) => Err(fault.into()),
        }
    }

    /// The answer of a query, with those in its FROM, on all that is published.
    fn answer<R: Threads + Wait + Sync>(
        &mut self,
        rt: &R,
        plans: &NestedPlan,
    ) -> Result<String, HearFault>
        requires held { HoldsSome B.schema self.old.kept self.old.publisher }
        requires planned { ArePlansOver B.schema plans.now }
        ensures heard { (w : Meant) → IsSession B.schema w self.old.kept self.old.publisher
            → ForNested B.schema plans.now (λ n. Hears (answers B.schema w (Ok n))
            (λ v. IsSession B.schema v self.new.kept self.new.publisher) result) }
    {
        let note = self.service.note(&mut self.publisher);
        self.service.learn(&mut self.asker, note);
        match self.service.query(rt, self.alloc, &mut self.asker, plans) {
            Err(_) => Err(HearFault::NoMemory),
            Ok(answer) => {
                self.service.confirm(&mut self.publisher, &mut self.asker);
                match answer_lines(self.alloc, &answer.rows, answer.at) {
                    Ok(text) => Ok(text),
                    Err(_) => Err(HearFault::NoMemory),
                }
            }
        }
    }
}

/// The plans of a query's text. A byte that isn't UTF-8 is a bad token.
fn plans_of(alloc: Global, schema: &Schema, text: &[u8]) -> Result<NestedPlan, TextFault>
    ensures plans { IfOk result (ArePlansMeant (schema_view schema.now)
        (meant.read_nested (schema_view schema.now) (asked_text text.now))) }
    ensures refused { IfErr result (IsRefusedAs (meant.read_nested (schema_view schema.now)
        (asked_text text.now))) }
{
    match str::from_utf8(text) {
        Ok(text) => read_nested(alloc, schema, text),
        Err(error) => match broken_text(alloc, text, error.valid_up_to()) {
            Ok(text) => read_nested(alloc, schema, text.as_str()),
            Err(_) => Err(TextFault::NoMemory),
        },
    }
}

/// The front of a text, which is UTF-8, and a byte behind it that is no token.
fn broken_text(alloc: Global, text: &[u8], place: usize) -> Result<String, NoMemory>
    requires within { place ≤ length text.now }
    requires valid { IsUtf8 (take place text.now) }
    ensures { IfOk result (λ s. string_bytes s ≡ take place text.now ++ 1 ∷ []) }
{
    match str::from_utf8(&text[..place]) {
        Ok(front) => {
            let mut broken = String::from_str(alloc, front)?;
            broken.push_str("\u{1}")?;
            Ok(broken)
        }
        Err(_) => unreachable!(),
    }
}
