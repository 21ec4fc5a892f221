ghost use Rattle.std.specs.Prelude.{◌≡◌, true};
ghost use Rattle.dr_dispatch.specs.History.{has_answer};

use crate::table_job::TableJob;
use dr_desk::{Naming, Pass, Piece, Room};
use std::marker::{Model, PhantomData};

/// That what was found of a tablet was added: what the desk keeps of it. A contract sees it as the tablet's number. Its
/// receipt is one of the journal of what grows, in which the tablet is answered; so who has it knows that the tablet
/// has a piece.
#[derive(Drop)]
pub struct Added<S: Room> {
    tablet: u32,
    receipt: Pass<S>,
}

impl<S: Room> Model for Added<S> {
    ghost use Rattle.std.specs.Prelude.{◌≡◌, ℕ, true};
    ghost use Rattle.dr_dispatch.specs.History.{has_answer};

    ghost Value = { ℕ };

    ghost view = { λ a. a.tablet };

    ghost invariant = { λ a. has_answer a.receipt.seen a.tablet ≡ true };
}

impl<S: Room> Added<S> {
    // By the receipt of its answer.
    pub(crate) fn new(tablet: u32, receipt: Pass<S>) -> Self
        requires { has_answer receipt.seen tablet ≡ true }
        ensures { result ≡ tablet }
    {
        Added { tablet, receipt }
    }

    // The receipt.
    pub(crate) fn into_receipt(self) -> Pass<S>
        ensures { has_answer result.seen self ≡ true }
    {
        let Added { tablet: _, receipt } = self;
        receipt
    }
}

impl<S: Room> Piece for Added<S> {
    ghost tablet_of = { λ a. a };

    fn tablet(&self) -> u32 {
        self.tablet
    }
}

/// Names the job of a service, whose desk keeps of each tablet that a piece of its own was added.
pub struct Jobs<S> {
    of: PhantomData<S>,
}

impl<S: TableJob + Room> Naming<Added<S>> for Jobs<S> {
    ghost use Rattle.std.specs.Prelude.{◌≡◌};

    ghost job = { S.job };

    ghost is_true = { λ t a. a ≡ t };
}
