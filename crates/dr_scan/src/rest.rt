//! What is left of an opened file, where the columns of its first records were taken.

ghost use Rattle.std.specs.Prelude.{◌≡◌, List, length, Option, IfOk, IfSome};
ghost use Rattle.dr_meaning.specs.Schema.{Schema as MeantSchema};
ghost use Rattle.dr_outside.specs.Link.{Files};
ghost use Rattle.dr_file.specs.OpenedFiles.{leaf_count};
ghost use Rattle.dr_group.specs.Partials.{partial_view, IsPartialOf};
ghost use Rattle.dr_plan.specs.Planned.{IsOfSchema, Planned, plan_leaves};
ghost use Rattle.dr_plan.specs.declared.plan.Plan.{Plan as MeantPlan};
ghost use Rattle.dr_scan.specs.Rests.{IsRestOf, MayJoin, joined};

use crate::leaf_stream::LeafStream;
use crate::leaf_streams::leaf_streams;
use dr_file::Opened;
use dr_group::Partial;
use dr_memory::NoMemory;
use dr_table::Steps;
use std::alloc::Global;

/// The streams of an opened file's leaves, of which the columns of the first records were taken.
#[derive(Drop)]
pub(crate) struct Rest<'f> {
    pub(crate) streams: Vec<LeafStream<'f>>,
    /// How many triplets of each batch are left.
    pub(crate) left: Vec<usize>,
    /// How many records come.
    pub(crate) records: u64,
    /// How many triplets were read.
    pub(crate) read: Steps,
    /// What was made of the records that were taken; nothing of none.
    pub(crate) made: Option<Partial>,
}

impl<'f> Rest<'f> {
    /// All of a file that was opened for so many leaves.
    ///
    /// Errors: want of memory alone.
    pub(crate) fn whole(
        alloc: Global,
        file: &'f Opened,
        leaves: usize,
    ) -> Result<Rest<'f>, NoMemory>
        requires { leaves ≡ leaf_count file.now }
        ensures { (s : MeantSchema) (p : MeantPlan) (held : Option Files) → IsOfSchema s p
            → length (plan_leaves p) ≡ leaves → IfOk result (IsRestOf s p held file.now) }
    {
        Ok(Rest {
            streams: leaf_streams(alloc, file, leaves)?,
            left: Vec::new(alloc),
            records: file.rows(),
            read: Steps::new(),
            made: None,
        })
    }
}

/// A partial with what was made of the records before its own, if anything was.
///
/// Errors: want of memory, or of room for texts or for the number of a group.
pub(crate) fn join_made(
    alloc: Global,
    made: Option<Partial>,
    partial: Partial,
) -> Result<Partial, NoMemory>
    requires { MayJoin made partial }
    ensures partial { IfOk result (λ x. partial_view x ≡ joined made (partial_view partial)) }
    ensures of_plan { IfOk result (λ x. (p : Planned) → IfSome made (IsPartialOf p) → IsPartialOf p partial
        → IsPartialOf p x) }
{
    match made {
        Some(mut first) => {
            first.merge(alloc, partial)?;
            Ok(first)
        }
        None => Ok(partial),
    }
}
