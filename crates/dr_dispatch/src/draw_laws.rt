//! Laws of what is handed out to a pass that drew a tablet.

ghost use Rattle.dr_dispatch.specs.DrawLaws.{FreshIsRecorded, NotFreshExactly, HandIsChosenOrFresh, NoHandIsNoChoice};

/// What is fresh can be handed out. A tablet isn't fresh exactly where it was handed out, or has no leaf.
pub fn fresh_is_exact()
    ensures recorded { FreshIsRecorded }
    ensures exactly { NotFreshExactly }
{}

/// What is handed out was the choice, or it is the first leaf of the tablet that was drawn and that wasn't handed out
/// before. Where nothing is handed out there is no choice.
pub fn draw_is_first()
    ensures hand { HandIsChosenOrFresh }
    ensures none { NoHandIsNoChoice }
{}
