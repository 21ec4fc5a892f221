//! The file that a command names.

ghost use Rattle.std.specs.Prelude.{◌≡◌, ◌<◌, ◌^◌, IfOk, IfErr, OnOk, IsTrue};
ghost use Rattle.dr_commands.specs.Commands.{meaning_of, command_view};
ghost use Rattle.dr_top.specs.World.{IsFileOf};
ghost use Rattle.dr_top.specs.Keeping.{IsUnput};
ghost use Rattle.dr_top.specs.NamedFile as meant;
ghost use Rattle.dr_top.specs.Stops.{StopsUnread, refusal_view};
ghost use Rattle.dr_top.specs.Answers.{AsksFor};

use crate::commands::named_file;
use crate::keeper_file::read_file;
use crate::refusal::Refusal;
use crate::stop::Stop;
use dr_commands::Command;
use dr_nested::{LONGEST_SCHEMA, SchemaProblem};
use dr_outside::Keeper;
use dr_table::{LONGEST_TABLE, TableProblem};
use std::alloc::Global;

/// What a file that a command names is read as.
#[derive(Clone, Copy)]
pub enum Kind {
    Schema,
    Table,
}

impl Kind {
    /// The greatest length of a file of this kind, in bytes.
    fn longest(self) -> usize
        ensures longest { result ≡ meant.longest self }
        ensures small { result < 2 ^ 32 }
    {
        match self {
            Kind::Schema => LONGEST_SCHEMA,
            Kind::Table => LONGEST_TABLE,
        }
    }

    /// How a longer file is refused.
    fn too_long(self) -> Refusal
        ensures { refusal_view result ≡ meant.too_long self }
    {
        match self {
            Kind::Schema => Refusal::Schema {
                offset: LONGEST_SCHEMA,
                problem: SchemaProblem::TooLong,
            },
            Kind::Table => Refusal::Table(TableProblem::TooLong),
        }
    }
}

/// The bytes of the file that a command names; none where it names none. The keeper is asked for the file's length and
/// then for its bytes, each once.
///
/// Errors: the file is longer than a file of its kind may be; the keeper failed; want of memory.
pub fn read_named<K: Keeper>(
    alloc: Global,
    command: &Command,
    keeper: &mut K,
) -> Result<Vec<u8>, Stop>
    ensures file { IfOk result (λ v. IsFileOf (meaning_of (command_view command.now)) (K.shows keeper.old) v.items) }
    ensures calm { OnOk result ((K.shows keeper.new).faults ≡ (K.shows keeper.old).faults) }
    ensures stops { IfErr result (StopsUnread (meaning_of (command_view command.now)) (K.shows keeper.old)
        (K.shows keeper.new)) }
    ensures kept { IsUnput (K.shows keeper.old) (K.shows keeper.new) }
    ensures stays_steady { IsTrue (K.shows keeper.old).is_steady → IsTrue (K.shows keeper.new).is_steady }
    ensures asks { AsksFor (meaning_of (command_view command.now)).file (K.shows keeper.old) (K.shows keeper.new) }
{
    match named_file(command) {
        None => Ok(Vec::new(alloc)),
        Some((path, kind)) => match read_file(alloc, keeper, path, kind.longest())? {
            Some(bytes) => Ok(bytes),
            None => Err(Stop::Refused(kind.too_long())),
        },
    }
}
