//! Laws of the pruner. Each function has an empty body, and its contract is a law.

ghost use Rattle.dr_prune.specs.AnswerLaws.{AnswersAreTested, AnswersStay, FewArePruned};
ghost use Rattle.dr_prune.specs.Nesting.{FewAreOpen};

/// Behind moves that nest a pruner may step.
pub fn few_are_open()
    ensures { FewAreOpen }
{}

/// Behind moves that nest a pruner that steps by answers may step.
pub fn few_are_pruned()
    ensures { FewArePruned }
{}

/// The answers of parts are the same behind an Enter or a Leave.
pub fn answers_stay()
    ensures { AnswersStay }
{}

/// Where each part was tested that is tested at a triplet, the answers are those behind it.
pub fn answers_are_tested()
    ensures { AnswersAreTested }
{}
