//! Handing over what is at hand of leaves: to their streams, for a walk that goes on there.

ghost use Rattle.std.specs.Prelude.{◌≡◌, ◌<◌, ℕ, List, length, map, Option, IfOk};
ghost use Rattle.dr_meaning.specs.Schema.{Schema as MeantSchema};
ghost use Rattle.dr_meaning.specs.Record.{Node};
ghost use Rattle.dr_levels.specs.Views.{column_form, column_view};
ghost use Rattle.dr_outside.specs.Link.{Files};
ghost use Rattle.dr_moves.specs.Leading.{Left};
ghost use Rattle.dr_agreement.specs.AtHand as hand;
ghost use Rattle.dr_columns.specs.Chunks.{HasTakenChunks};
ghost use Rattle.dr_file.specs.OpenedFiles.{rows_of};
ghost use Rattle.dr_file.specs.declared.opened.Opened.{Opened as MeantOpened};
ghost use Rattle.dr_plan.specs.Planned.{plan_leaves};
ghost use Rattle.dr_plan.specs.declared.plan.Plan.{Plan as MeantPlan};
ghost use Rattle.dr_scan.specs.Chunked.{batch_forms, hand_forms, same_streams, AreOfStreams};
ghost use Rattle.dr_scan.specs.Rests.{HasGiven, IsRestOf};
ghost use Rattle.dr_scan.specs.Streamed.{last_of, left_at, AreLeafStreams};

use crate::leaf_stream::LeafStream;
use crate::rest::Rest;
use dr_agreement::AtHand;
use dr_columns::Chunks;
use dr_memory::NoMemory;
use dr_table::Steps;
use std::alloc::Global;

/// Puts what is at hand of a leaf at the end of its stream's batch, in the place of what that has, and answers how many
/// triplets they are.
fn give_back(leaf: &mut AtHand, stream: &mut LeafStream<'_>) -> usize
    requires { column_form (stream.old).batch ≡ hand.form_of leaf.old }
    ensures rest { last_of result (column_view (stream.new).batch) ≡ hand.rest_of leaf.old }
    ensures form { column_form (stream.new).batch ≡ column_form (stream.old).batch }
    ensures stream { ((stream.new).stream ≡ (stream.old).stream) × ((stream.new).ended ≡ (stream.old).ended) }
    ensures leaf_form { hand.form_of leaf.new ≡ hand.form_of leaf.old }
{
    leaf.give(&mut stream.batch)
}

/// Puts what is at hand of each leaf at the end of its stream's batch, in the place of what that has. Answers how many
/// triplets they are of each.
///
/// Errors: want of memory alone.
fn hand_over(
    alloc: Global,
    streams: &mut [LeafStream<'_>],
    leaves: &mut [AtHand],
) -> Result<Vec<usize>, NoMemory>
    requires { map hand.form_of leaves.old ≡ batch_forms streams.old }
    ensures left { IfOk result (λ v. (i : ℕ) → left_at streams.new v.items i ≡ hand.here_of leaves.old i) }
    ensures streams { same_streams streams.new ≡ same_streams streams.old }
{
    let mut left = Vec::with_capacity(alloc, streams.len())?;
    'streams: for at in 0..streams.len() {
        left.push(give_back(&mut leaves[at], &mut streams[at]))?;
    }
    Ok(left)
}

/// What is left of an opened file, where the columns of its first records were taken.
///
/// Errors: want of memory alone.
pub(crate) fn rest_of<'f>(
    alloc: Global,
    mut streams: Vec<LeafStream<'f>>,
    chunks: Chunks<'_>,
    read: Steps,
) -> Result<Rest<'f>, NoMemory>
    requires { hand_forms chunks ≡ batch_forms streams.items }
    ensures { (s : MeantSchema) (p : MeantPlan) (held : Option Files) (o : MeantOpened) (given : Left) (R : List Node)
        → AreLeafStreams held o (plan_leaves p) given (streams.entry).items
        → HasTakenChunks s p (rows_of o) given R chunks.entry
        → AreOfStreams (streams.entry).items chunks.entry → HasGiven (length (plan_leaves p)) given read
        → 0 < length (plan_leaves p) → IfOk result (IsRestOf s p held o) }
{
    let (mut leaves, records, made) = chunks.into_parts();
    let left = hand_over(alloc, &mut streams, &mut leaves)?;
    Ok(Rest {
        streams,
        left,
        records,
        read,
        made: Some(made),
    })
}
