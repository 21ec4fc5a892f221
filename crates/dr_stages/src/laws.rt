//! Laws of the plans of queries over results.

ghost use Rattle.dr_stages.specs.Stages.{PlansAreBound, OrdersFit};

/// The plans that a text gives are bound one over another; its result goes by an item of the outermost object.
pub fn plans_of_texts_are_bound()
    ensures bound { PlansAreBound }
    ensures orders { OrdersFit }
{}
