//! What a command refuses, with its line on standard error.

ghost use Rattle.std.specs.Prelude.{◌≡◌, ◌≤◌, ◌+◌, ◌++◌, length, decimal};
ghost use Rattle.dr_meaning.specs.Refusals.{schema_problem_name, path_fault_name, record_fault_name, line_fault_name, schema_refusal_text, field_refusal_text, query_refusal_text, line_refusal_text};
ghost use Rattle.dr_nested.specs.Faults.{problem_view, path_problem_view};
ghost use Rattle.dr_json.specs.Faults.{record_problem_view};
ghost use Rattle.dr_formats.specs.Reports.{table_fault_name, table_refusal_text, words_refusal_text};
ghost use Rattle.dr_table.specs.Faults.{problem_view as table_problem_view};
ghost use Rattle.dr_commands.specs.Refusals.{refusal_text};
ghost use Rattle.dr_sub_meaning.specs.Session.{session_fault_name, session_refusal_text};
ghost use Rattle.dr_session.specs.Faults.{problem_view as session_problem_view};
ghost use Rattle.dr_load.specs.Words.{words_problem_view};
ghost use Rattle.dr_sub.specs.Texts.{refusal_of as query_refusal_of};
ghost use Rattle.dr_input.specs.Faults.{line_problem_view};
ghost use Rattle.dr_top.specs.Stops.{refusal_view};

use crate::report::Report;
use dr_input::LineProblem;
use dr_json::RecordProblem;
use dr_load::WordsProblem;
use dr_nested::{PathProblem, SchemaProblem};
use dr_session::SessionProblem;
use dr_sub::TextProblem;
use dr_table::TableProblem;
use itoa::Buffer;

/// What is refused, in the order in which it is looked at.
#[derive(Clone, Copy)]
pub enum Refusal {
    /// The schema's first problem, at its byte offset.
    Schema {
        offset: usize,
        problem: SchemaProblem,
    },
    /// The table's first problem.
    Table(TableProblem),
    /// A directory, or the number of copies.
    Words(WordsProblem),
    /// The first FIELD that is refused, counted from 0.
    Field {
        number: usize,
        problem: PathProblem,
    },
    /// The query's first problem, at its byte place in the query's text.
    Query {
        place: usize,
        problem: TextProblem,
    },
    /// The first line that is refused, counted from 1.
    Line {
        number: u64,
        problem: LineProblem,
    },
    /// The first line of a session that is refused, counted from 1.
    Session {
        number: u64,
        problem: SessionProblem,
    },
}

/// The word for a schema's problem.
fn schema_word(problem: SchemaProblem) -> &'static str
    ensures word { result.now ≡ schema_problem_name (problem_view problem) }
    ensures short { length result.now ≤ 20 }
{
    match problem {
        SchemaProblem::TooLong => "TooLong",
        SchemaProblem::FloatKind => "FloatKind",
        SchemaProblem::EmptyGroup => "EmptyGroup",
        SchemaProblem::Syntax => "Syntax",
        SchemaProblem::BadName => "BadName",
        SchemaProblem::DuplicateName => "DuplicateName",
        SchemaProblem::TooDeep => "TooDeep",
        SchemaProblem::TooManyLeaves => "TooManyLeaves",
    }
}

/// The word for a FIELD's problem.
fn field_word(problem: PathProblem) -> &'static str
    ensures word { result.now ≡ path_fault_name (path_problem_view problem) }
    ensures short { length result.now ≤ 20 }
{
    match problem {
        PathProblem::UnknownField => "UnknownField",
        PathProblem::NotALeaf => "NotALeaf",
    }
}

/// The word for a record's problem.
fn record_word(problem: RecordProblem) -> &'static str
    ensures word { result.now ≡ record_fault_name (record_problem_view problem) }
    ensures short { length result.now ≤ 20 }
{
    match problem {
        RecordProblem::NotJson => "NotJson",
        RecordProblem::UnknownField => "UnknownField",
        RecordProblem::MissingField => "MissingField",
        RecordProblem::WrongKind => "WrongKind",
        RecordProblem::OutOfRange => "OutOfRange",
        RecordProblem::NullElement => "NullElement",
        RecordProblem::TooLarge => "TooLarge",
    }
}

/// The word for a line's problem.
fn line_word(problem: LineProblem) -> &'static str
    ensures word { result.now ≡ line_fault_name (line_problem_view problem) }
    ensures short { length result.now ≤ 20 }
{
    match problem {
        LineProblem::TooLong => "LineTooLong",
        LineProblem::TooManyRecords => "TooManyRecords",
        LineProblem::Record(problem) => record_word(problem),
    }
}

/// A number in a report.
fn push_number(report: &mut Report, number: u64)
    requires { length report.old ≤ 100 }
    ensures bytes { report.new ≡ report.old ++ decimal number }
    ensures len { length report.new ≤ length report.old + 40 }
{
    let mut buffer = Buffer::new();
    report.push(buffer.format(number));
}

/// `refused schema at B: WHAT`.
fn schema_report(offset: usize, problem: SchemaProblem) -> Report
    ensures { result ≡ schema_refusal_text (record { place = offset; problem = problem_view problem }) }
{
    let mut report = Report::new();
    report.push("refused schema at ");
    push_number(&mut report, offset as u64);
    report.push(": ");
    report.push(schema_word(problem));
    report.push("\n");
    report
}

/// Appends the words for a table's problem.
fn push_table_problem(report: &mut Report, problem: TableProblem)
    requires { length report.old ≤ 20 }
    ensures bytes { report.new ≡ report.old ++ table_fault_name (table_problem_view problem) }
    ensures len { length report.new ≤ length report.old + 100 }
{
    match problem {
        TableProblem::TooLong => report.push("TooLong"),
        TableProblem::Head => report.push("Head"),
        TableProblem::Tablets => report.push("Tablets"),
        TableProblem::Copies => report.push("Copies"),
        TableProblem::Leaf(number) => {
            report.push("Leaf ");
            push_number(report, number as u64);
        }
        TableProblem::Schema { offset, problem } => {
            report.push("schema at ");
            push_number(report, offset as u64);
            report.push(": ");
            report.push(schema_word(problem));
        }
    }
}

/// `refused table: WHAT`.
fn table_report(problem: TableProblem) -> Report
    ensures { result ≡ table_refusal_text (table_problem_view problem) }
{
    let mut report = Report::new();
    report.push("refused table: ");
    push_table_problem(&mut report, problem);
    report.push("\n");
    report
}

/// `refused leaf N`, `refused copies`.
fn words_report(problem: WordsProblem) -> Report
    ensures { result ≡ words_refusal_text (words_problem_view problem) }
{
    let mut report = Report::new();
    match problem {
        WordsProblem::Leaf(number) => {
            report.push("refused leaf ");
            push_number(&mut report, number as u64);
            report.push("\n");
        }
        WordsProblem::Copies => report.push("refused copies\n"),
    }
    report
}

/// `refused field N: WHAT`.
fn field_report(number: usize, problem: PathProblem) -> Report
    ensures { result ≡ field_refusal_text number (path_problem_view problem) }
{
    let mut report = Report::new();
    report.push("refused field ");
    push_number(&mut report, number as u64);
    report.push(": ");
    report.push(field_word(problem));
    report.push("\n");
    report
}

/// `refused line N: WHAT`.
fn line_report(number: u64, problem: LineProblem) -> Report
    ensures { result ≡ line_refusal_text (record { line = number; fault = line_problem_view problem }) }
{
    let mut report = Report::new();
    report.push("refused line ");
    push_number(&mut report, number);
    report.push(": ");
    report.push(line_word(problem));
    report.push("\n");
    report
}

/// Appends the words for the problem of a session's line.
fn push_session_problem(report: &mut Report, problem: SessionProblem)
    requires { length report.old ≤ 60 }
    ensures bytes { report.new ≡ report.old ++ session_fault_name (session_problem_view problem) }
    ensures len { length report.new ≤ length report.old + 100 }
{
    match problem {
        SessionProblem::TooLong => report.push("LineTooLong"),
        SessionProblem::TooManyLines => report.push("TooManyLines"),
        SessionProblem::TooManyRecords => report.push("TooManyRecords"),
        SessionProblem::Record(problem) => report.push(record_word(problem)),
        SessionProblem::Full => report.push("Full"),
        SessionProblem::Query { place, problem } => {
            report.push("query at ");
            push_number(report, place as u64);
            report.push(": ");
            report.push(problem.name());
        }
        SessionProblem::Command => report.push("Command"),
    }
}

/// `refused line N: WHAT`, of a session.
fn session_report(number: u64, problem: SessionProblem) -> Report
    ensures { result ≡ session_refusal_text (record { line = number; fault = session_problem_view problem }) }
{
    let mut report = Report::new();
    report.push("refused line ");
    push_number(&mut report, number);
    report.push(": ");
    push_session_problem(&mut report, problem);
    report.push("\n");
    report
}

/// `refused query at B: WHAT`.
fn query_report(place: usize, problem: TextProblem) -> Report
    ensures { result ≡ query_refusal_text (query_refusal_of place problem) }
{
    let mut report = Report::new();
    report.push("refused query at ");
    push_number(&mut report, place as u64);
    report.push(": ");
    report.push(problem.name());
    report.push("\n");
    report
}

impl Refusal {
    /// The line on standard error.
    pub fn report(self) -> Report
        ensures { result ≡ refusal_text (refusal_view self) }
    {
        match self {
            Refusal::Schema { offset, problem } => schema_report(offset, problem),
            Refusal::Table(problem) => table_report(problem),
            Refusal::Words(problem) => words_report(problem),
            Refusal::Field { number, problem } => field_report(number, problem),
            Refusal::Query { place, problem } => query_report(place, problem),
            Refusal::Line { number, problem } => line_report(number, problem),
            Refusal::Session { number, problem } => session_report(number, problem),
        }
    }
}
