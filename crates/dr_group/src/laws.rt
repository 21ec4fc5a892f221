// Laws of partials.

ghost use Rattle.dr_group.specs.TakenValues.{TakenTogether};
ghost use Rattle.dr_group.specs.Partials.{PartialsOfOnePlanAreAlike};
ghost use Rattle.dr_group.specs.ChainLaws.{ChainsAreShort};

/// Two partials of one plan can be merged.
pub fn partials_of_one_plan_are_alike()
    ensures { PartialsOfOnePlanAreAlike }
{}

/// Values that are taken one after another are what is gathered of them, joined to what there was.
pub fn values_are_taken_together()
    ensures { TakenTogether }
{}

/// A group that is looked for by its hash is found, or isn't there, within 16 steps along a chain, whatever the key
/// tuples. Groups of which more share a bucket are looked for in the order of their key tuples.
pub fn chains_are_short()
    ensures { ChainsAreShort }
{}
