//! Laws of seats: each kind of step keeps their rule.

ghost use Rattle.dr_dispatch.specs.SeatLaws.{FirstKeeps, KeeperKnows, LookKeeps, AddKeeps, HandKeeps, GatherKeeps, PassKeeps, NewcomerKeeps, MetAreOfHistory};
ghost use Rattle.dr_dispatch.specs.SeatLaws.{DrawingKeeps, NoneAreDrawn, DrawnAreBelow, DrawingIsDrawn, OthersAreDrawn, SplitsAreDrawn, JoinsAreDrawn};

/// The rule holds of the first seat, and of all seats after a new pass's seat is split off.
pub fn rule_begins()
    ensures first { FirstKeeps }
    ensures newcomer { NewcomerKeeps }
{}

/// A call joins the keeper's seat to a pass's, looks or adds an event, and splits it off again; each keeps the rule.
pub fn calls_keep_rule()
    ensures joins { HandKeeps }
    ensures looks { LookKeeps }
    ensures adds { AddKeeps }
    ensures splits { PassKeeps }
{}

/// The keeper gathers the passes' seats, knows the history, and that what they saw begins it.
pub fn keeper_gathers()
    ensures joins { GatherKeeps }
    ensures knows { KeeperKnows }
    ensures history { MetAreOfHistory }
{}

/// A pass draws a tablet outside the lock, and keeps both rules. What a seat drew is its own, and below the next tablet
/// to be drawn.
pub fn draws_keep_rule()
    ensures first { NoneAreDrawn }
    ensures history { DrawingKeeps }
    ensures draws { DrawingIsDrawn }
    ensures below { DrawnAreBelow }
{}

/// All other steps draw nothing, a seat that is split off has nothing drawn, and a join leaves to one seat what both
/// drew.
pub fn drawn_stay_with_seats()
    ensures others { OthersAreDrawn }
    ensures splits { SplitsAreDrawn }
    ensures joins { JoinsAreDrawn }
{}
