//! The leaf that a FIELD names.

ghost use Rattle.std.specs.Prelude.{◌≡◌, Ok, IfOk, IfErr};
ghost use Rattle.dr_meaning.specs.Path.{find_leaf};
ghost use Rattle.dr_nested.specs.Views.{fields_view};
ghost use Rattle.dr_nested.specs.PathView.{path_view};
ghost use Rattle.dr_top.specs.declared.field.FieldFault.TheVariants as stops;
ghost use Rattle.dr_top.specs.Fields.{IsRefusedField};

use dr_memory::NoMemory;
use dr_nested::{Path, PathFault, PathProblem, Schema, find};
use std::alloc::{AllocFailed, Global};

/// Why a FIELD names no leaf.
#[derive(Clone, Copy)]
pub enum FieldFault {
    NoMemory,
    /// The FIELD of this number, counted from 0, is refused.
    Refused { number: usize, problem: PathProblem },
}

impl From<NoMemory> for FieldFault {
    ghost from_gives = { λ _ fault. fault ≡ stops.NoMemory };

    fn from(_: NoMemory) -> FieldFault {
        FieldFault::NoMemory
    }
}

impl<T: Drop> From<AllocFailed<T>> for FieldFault {
    ghost from_gives = { λ _ fault. fault ≡ stops.NoMemory };

    fn from(_: AllocFailed<T>) -> FieldFault {
        FieldFault::NoMemory
    }
}

/// The leaf of a FIELD of this number.
///
/// Errors: the FIELD is refused; want of memory.
pub fn find_field(
    alloc: Global,
    schema: &Schema,
    text: &str,
    number: usize,
) -> Result<Path, FieldFault>
    ensures leaf { IfOk result (λ p. find_leaf text.now (fields_view (schema.now).fields.items) ≡ Ok (path_view p)) }
    ensures refused { IfErr result (IsRefusedField (find_leaf text.now (fields_view (schema.now).fields.items))
        number) }
{
    match find(alloc, schema, text) {
        Ok(path) => Ok(path),
        Err(PathFault::NoMemory) => Err(FieldFault::NoMemory),
        Err(PathFault::Refused(problem)) => Err(FieldFault::Refused { number, problem }),
    }
}
