//! Laws of histories.

ghost use Rattle.dr_dispatch.specs.HistoryLaws.{ReplayIsHistory, HistoryReplaysToItself, FrontIsHistory, HistoryGoesOn, HistoryIsBounded};
ghost use Rattle.dr_dispatch.specs.HistoryLaws.{AnsweredHaveAnswers, AnsweredAreDistinct, AnsweredAreTablets};

/// What a list of events records is a history, and a history records itself.
pub fn replay_is_exact()
    ensures history { ReplayIsHistory }
    ensures same { HistoryReplaysToItself }
{}

/// A front of a history is one, and a history goes on with just the events that are recorded behind it.
pub fn histories_grow_by_events()
    ensures front { FrontIsHistory }
    ensures goes_on { HistoryGoesOn }
{}

/// A history has at most three events for each pair of a tablet and a leaf of it.
pub fn histories_are_bounded()
    ensures { HistoryIsBounded }
{}

/// The answered tablets are those with an answer, each once, and no more than there are.
pub fn tablets_are_answered_once()
    ensures answers { AnsweredHaveAnswers }
    ensures once { AnsweredAreDistinct }
    ensures tablets { AnsweredAreTablets }
{}
