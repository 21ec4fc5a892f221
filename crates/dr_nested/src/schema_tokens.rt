//! Reading a schema text, token by token.

ghost use Rattle.std.specs.Prelude.{◌≡◌, ◌<◌, ◌+◌, ◌∷◌, [], bytes_eq, string_bytes, option_map, OnOk, IfErr};
ghost use Rattle.std.specs.List.{list_any};
ghost use Rattle.dr_nested.specs.declared.shape.Field.{Field};
ghost use Rattle.dr_meaning.specs.SchemaText as text;
ghost use Rattle.dr_meaning.specs.SchemaText.{append_fields, on_name, on_token, on_repetition, on_kind, repetition_of, kind_of, name_problem, reading_start};
ghost use Rattle.dr_nested.specs.Views.{rep_view, kind_view, fields_view};
ghost use Rattle.dr_nested.specs.Faults.{problem_view};
ghost use Rattle.dr_nested.specs.Reading.{reading_view, Steps};

use crate::fault::SchemaProblem;
use crate::limits::{GREATEST_DEPTH, LONGEST_NAME, MOST_LEAVES};
use crate::shape::{Field, Kind, Rep, Shape};
use crate::state::{Expected, OpenGroup, Reading, Stop};
use std::alloc::Global;
use std::mem;

impl Reading {
    /// Before the first token.
    pub fn start(alloc: Global) -> Reading
        ensures { reading_view result ≡ reading_start }
    {
        Reading {
            expected: Expected::MessageWord,
            name: String::new(alloc),
            message: String::new(alloc),
            fields: Vec::new(alloc),
            groups: Vec::new(alloc),
            leaves: 0,
        }
    }

    fn on_message_word(&mut self, word: &str) -> Result<(), Stop>
        ensures { Steps (on_name text.message_word (reading_view self.old) word.now) (reading_view self.new) result }
    {
        if word == "message" {
            self.expected = Expected::MessageName;
            Ok(())
        } else {
            Err(Stop::Problem(SchemaProblem::Syntax))
        }
    }

    fn on_message_name(&mut self, alloc: Global, word: &str) -> Result<(), Stop>
        ensures { Steps (on_name text.message_name (reading_view self.old) word.now) (reading_view self.new) result }
    {
        if word.len() > LONGEST_NAME {
            return Err(Stop::Problem(SchemaProblem::BadName));
        }
        match String::from_str(alloc, word) {
            Ok(message) => {
                self.message = message;
                self.expected = Expected::MessageBrace;
                Ok(())
            }
            Err(_) => Err(Stop::NoMemory),
        }
    }

    fn on_repetition(&mut self, word: &str) -> Result<(), Stop>
        ensures { Steps (on_repetition (reading_view self.old) (repetition_of word.now))
            (reading_view self.new) result }
    {
        self.expected = if word == "required" {
            Expected::KindOrGroup(Rep::Required)
        } else if word == "optional" {
            Expected::KindOrGroup(Rep::Optional)
        } else if word == "repeated" {
            Expected::KindOrGroup(Rep::Repeated)
        } else {
            return Err(Stop::Problem(SchemaProblem::Syntax));
        };
        Ok(())
    }

    fn on_kind(&mut self, rep: Rep, word: &str) -> Result<(), Stop>
        ensures { Steps (on_kind (reading_view self.old) (rep_view rep) word.now (kind_of word.now))
            (reading_view self.new) result }
    {
        self.expected = if word == "boolean" {
            Expected::LeafName(rep, Kind::Bool)
        } else if word == "int32" {
            Expected::LeafName(rep, Kind::I32)
        } else if word == "int64" {
            Expected::LeafName(rep, Kind::I64)
        } else if word == "string" {
            Expected::LeafName(rep, Kind::Text)
        } else if word == "group" {
            Expected::GroupName(rep)
        } else if word == "float" || word == "double" {
            return Err(Stop::Problem(SchemaProblem::FloatKind));
        } else {
            return Err(Stop::Problem(SchemaProblem::Syntax));
        };
        Ok(())
    }

    /// The first problem of a field's name, if it has one.
    fn name_problem(&self, word: &str) -> Option<SchemaProblem>
        ensures { name_problem (reading_view self.now) word.now ≡ option_map problem_view result }
    {
        if word.len() > LONGEST_NAME {
            Some(SchemaProblem::BadName)
        } else if has_name(&self.fields, word) {
            Some(SchemaProblem::DuplicateName)
        } else if self.groups.len() >= GREATEST_DEPTH {
            Some(SchemaProblem::TooDeep)
        } else {
            None
        }
    }

    fn on_leaf_name(&mut self, alloc: Global, rep: Rep, kind: Kind, word: &str) -> Result<(), Stop>
        ensures { Steps (on_name (text.leaf_name (rep_view rep) (kind_view kind)) (reading_view self.old) word.now)
            (reading_view self.new) result }
    {
        if let Some(problem) = self.name_problem(word) {
            return Err(Stop::Problem(problem));
        }
        if self.leaves >= MOST_LEAVES {
            return Err(Stop::Problem(SchemaProblem::TooManyLeaves));
        }
        match String::from_str(alloc, word) {
            Ok(name) => {
                self.name = name;
                self.expected = Expected::LeafEnd(rep, kind);
                Ok(())
            }
            Err(_) => Err(Stop::NoMemory),
        }
    }

    fn on_group_name(&mut self, alloc: Global, rep: Rep, word: &str) -> Result<(), Stop>
        ensures { Steps (on_name (text.group_name (rep_view rep)) (reading_view self.old) word.now)
            (reading_view self.new) result }
    {
        if let Some(problem) = self.name_problem(word) {
            return Err(Stop::Problem(problem));
        }
        match String::from_str(alloc, word) {
            Ok(name) => {
                self.name = name;
                self.expected = Expected::GroupBrace(rep);
                Ok(())
            }
            Err(_) => Err(Stop::NoMemory),
        }
    }

    /// A word of the text.
    pub fn on_name(&mut self, alloc: Global, word: &str) -> Result<(), Stop>
        ensures { Steps (on_token (reading_view self.old) (text.name word.now)) (reading_view self.new) result }
    {
        match self.expected {
            Expected::MessageWord => self.on_message_word(word),
            Expected::MessageName => self.on_message_name(alloc, word),
            Expected::FirstField | Expected::NextField | Expected::AfterGroup => self.on_repetition(
                word,
            ),
            Expected::KindOrGroup(rep) => self.on_kind(rep, word),
            Expected::LeafName(rep, kind) => self.on_leaf_name(alloc, rep, kind, word),
            Expected::GroupName(rep) => self.on_group_name(alloc, rep, word),
            Expected::MessageBrace
            | Expected::LeafEnd(_, _)
            | Expected::GroupBrace(_)
            | Expected::TextEnd => { Err(Stop::Problem(SchemaProblem::Syntax)) }
        }
    }

    fn begin_group(&mut self, alloc: Global, rep: Rep) -> Result<(), Stop>
        ensures { Steps (text.begin_group (rep_view rep) (string_bytes (self.old).name) (reading_view self.old))
            (reading_view self.new) result }
    {
        let group = OpenGroup {
            before: mem::replace(&mut self.fields, Vec::new(alloc)),
            name: mem::replace(&mut self.name, String::new(alloc)),
            rep,
        };
        match self.groups.push(group) {
            Ok(()) => {
                self.expected = Expected::FirstField;
                Ok(())
            }
            Err(_) => Err(Stop::NoMemory),
        }
    }

    /// A `{` of the text.
    pub fn on_open(&mut self, alloc: Global) -> Result<(), Stop>
        ensures { Steps (on_token (reading_view self.old) text.open_brace) (reading_view self.new) result }
    {
        match self.expected {
            Expected::MessageBrace => {
                self.expected = Expected::FirstField;
                Ok(())
            }
            Expected::GroupBrace(rep) => self.begin_group(alloc, rep),
            _ => Err(Stop::Problem(SchemaProblem::Syntax)),
        }
    }

    fn end_group(&mut self) -> Result<(), Stop>
        ensures { Steps (text.end_group (reading_view self.old) ((reading_view self.old).groups))
            (reading_view self.new) result }
    {
        match self.groups.pop() {
            None => {
                self.expected = Expected::TextEnd;
                Ok(())
            }
            Some(OpenGroup { before, name, rep }) => {
                let inside = mem::replace(&mut self.fields, before);
                let field = Field {
                    name,
                    rep,
                    shape: Shape::Group(inside),
                };
                match push_field(&mut self.fields, field) {
                    Ok(()) => {
                        self.expected = Expected::AfterGroup;
                        Ok(())
                    }
                    Err(stop) => Err(stop),
                }
            }
        }
    }

    /// A `}` of the text.
    pub fn on_close(&mut self) -> Result<(), Stop>
        ensures { Steps (on_token (reading_view self.old) text.close_brace) (reading_view self.new) result }
    {
        match self.expected {
            Expected::FirstField => Err(Stop::Problem(SchemaProblem::EmptyGroup)),
            Expected::NextField | Expected::AfterGroup => self.end_group(),
            _ => Err(Stop::Problem(SchemaProblem::Syntax)),
        }
    }

    fn add_leaf(&mut self, alloc: Global, rep: Rep, kind: Kind) -> Result<(), Stop>
        requires { (self.old).leaves < 1024 }
        ensures { Steps (text.add_leaf (rep_view rep) (kind_view kind) (string_bytes (self.old).name)
            (reading_view self.old)) (reading_view self.new) result }
    {
        let name = mem::replace(&mut self.name, String::new(alloc));
        match push_field(
            &mut self.fields,
            Field {
                name,
                rep,
                shape: Shape::Leaf(kind),
            },
        ) {
            Ok(()) => {
                self.leaves += 1;
                self.expected = Expected::NextField;
                Ok(())
            }
            Err(stop) => Err(stop),
        }
    }

    /// A `;` of the text.
    pub fn on_semicolon(&mut self, alloc: Global) -> Result<(), Stop>
        ensures { Steps (on_token (reading_view self.old) text.semicolon) (reading_view self.new) result }
    {
        match self.expected {
            Expected::LeafEnd(rep, kind) => self.add_leaf(alloc, rep, kind),
            Expected::AfterGroup => {
                self.expected = Expected::NextField;
                Ok(())
            }
            _ => Err(Stop::Problem(SchemaProblem::Syntax)),
        }
    }
}

/// Adds a field to a group.
#[tactic(auto, using(crate::proofs::ViewLemmas::fields_view_append))]
fn push_field(fields: &mut Vec<Field>, field: Field) -> Result<(), Stop>
    ensures added { OnOk result (fields_view (fields.new).items
        ≡ append_fields (fields_view (fields.old).items) (fields_view (field ∷ []))) }
    ensures memory { IfErr result (λ e. e ≡ Stop.NoMemory) }
{
    fields.push(field).map_err(|_| Stop::NoMemory)
}

/// Whether a field has this name.
fn has_name(fields: &[Field], name: &str) -> bool
    ensures { result ≡ list_any (λ (f : Field). bytes_eq name.now (string_bytes f.name)) fields.now }
{
    fields.iter().any(|field| name == field.name.as_str())
}
