//! Laws of choices.

ghost use Rattle.dr_dispatch.specs.ChoiceLaws.{ChoiceIsRecorded, AnsweredIsNotChosen, NoChoiceExactly, FailedTabletIsChosen, SettledWithoutChoice, ChoiceIsNext};

/// A choice can be handed out, and its tablet has no answer.
pub fn choice_is_recorded()
    ensures recorded { ChoiceIsRecorded }
    ensures unanswered { AnsweredIsNotChosen }
{}

/// There is no choice exactly where nothing is to be done for any tablet now.
pub fn no_choice_is_exact()
    ensures exactly { NoChoiceExactly }
    ensures failed { FailedTabletIsChosen }
{}

/// Where no leaf is at work and there is no choice, each tablet was answered, or failed on all of its leaves.
pub fn settled_history_is_finished()
    ensures { SettledWithoutChoice }
{}

/// What is chosen is the first leaf that is left of the lowest tablet that no leaf is at work on; or, where there is no
/// such tablet, of the lowest whose last hand-out lies far back.
pub fn choice_is_next()
    ensures { ChoiceIsNext }
{}
