ghost use Rattle.std.specs.Prelude.{◌≡◌, [], true, IfOk, OnErr, OnOk, slice_set};
ghost use Rattle.dr_serve.specs.GrowsOn.{AreAnswered, GrowsOn, HavePieces, IsOfPieces};
ghost use Rattle.dr_serve.specs.Working.{found};

use crate::added::Added;
use crate::answered::Answered;
use crate::table_job::TableJob;
use dr_desk::{Event, Ground, Hand, Journal, Room};
use dr_group::Partial;
use dr_memory::NoMemory;
use dr_tree::Growing;
use std::alloc::Global;
use std::marker::Model;

/// What has grown of the pieces that came, each true of its tablet, and which tablets have one. Workers add to it under
/// a lock. Beside it lies a journal, in which a tablet that has a piece is answered, and no other.
#[derive(Drop)]
pub struct Grown<S: TableJob + Room> {
    grown: Growing,
    has_piece: Vec<bool>,
    journal: Journal<S>,
}

impl<S: TableJob + Room> Model for Grown<S> {
    ghost use Rattle.std.specs.Prelude.{Bool, List};
    ghost use Rattle.dr_serve.specs.GrowsOn.{IsOfPieces};

    ghost Value = { List Bool };

    ghost view = { λ g. g.has_piece.items };

    ghost invariant = { λ g. S.has_grown g.grown g.has_piece.items × IsOfPieces g.journal g.has_piece.items };
}

impl<S: TableJob + Room> Grown<S> {
    // This much has grown, and no tablet has a piece. The ground is that of the journal.
    pub(crate) fn new(answered: Answered, ground: Ground) -> Self
        requires grown { S.has_grown answered.grown answered.has_piece.items }
        requires none { IsOfPieces [] answered.has_piece.items }
        requires ground { ground.table ≡ S.table }
        ensures { result ≡ answered.has_piece.items }
    {
        let Answered { grown, has_piece } = answered;
        Grown {
            grown,
            has_piece,
            journal: Journal::new(ground),
        }
    }

    // Adds the piece that came for a hand, unless its tablet has one.
    //
    // Errors: want of memory alone. The tablet has no piece then, and all else is as it was.
    pub(crate) fn add(
        &mut self,
        alloc: Global,
        hand: Hand,
        partial: Partial,
    ) -> Result<Added<S>, NoMemory>
        requires grows_on { GrowsOn S.is_true S.has_grown }
        requires truth { S.is_true hand.tablet (found hand.tablet partial) }
        ensures added { OnOk result (self.new ≡ slice_set self.old hand.tablet true) }
        ensures tablet { IfOk result (λ a. a ≡ hand.tablet) }
        ensures refused { OnErr result (self.new ≡ self.old) }
    {
        let tablet = hand.tablet as usize;
        if self.has_piece[tablet] {
            return Ok(Added::new(hand.tablet, self.journal.receipt()));
        }
        self.grown.add(alloc, hand.tablet, partial)?;
        self.has_piece[tablet] = true;
        let receipt = self.journal.add(Event::Answer(hand));
        Ok(Added::new(hand.tablet, receipt))
    }

    // Each tablet of which one of these is kept has a piece.
    pub(crate) fn confirm(&mut self, pieces: Vec<Added<S>>)
        ensures same { self.new ≡ self.old }
        ensures there { HavePieces self.old pieces.items }
    {
        confirm_all(&mut self.journal, pieces);
    }

    // What has grown.
    pub(crate) fn into_answered(self) -> Answered
        ensures grown { S.has_grown result.grown result.has_piece.items }
        ensures pieces { result.has_piece.items ≡ self }
    {
        let Grown {
            grown,
            has_piece,
            journal: _,
        } = self;
        Answered { grown, has_piece }
    }
}

// Each of these tablets is answered in the journal.
fn confirm_all<S: Room>(journal: &mut Journal<S>, mut pieces: Vec<Added<S>>)
    ensures same { journal.new ≡ journal.old }
    ensures answered { AreAnswered journal.old pieces.items }
{
    'pieces: while let Some(added) = pieces.pop() {
        journal.confirm(added.into_receipt());
    }
}
