// Laws of accumulators.

ghost use Rattle.dr_partials.specs.AccumulatorLaws.{JoinOfBoth, GivesAggregate, JoinIsAssociative, JoinIsCommutative, EmptyIsNeutral, TakesNextValue};

/// What is gathered of values is joined from what is gathered of a front of them and of the rest; one more value is
/// taken by itself.
pub fn gathered_values_are_joined()
    ensures joins { JoinOfBoth }
    ensures takes { TakesNextValue }
{}

/// What is gathered of values gives their aggregate.
pub fn accumulator_gives_aggregate()
    ensures { GivesAggregate }
{}

/// Joining is associative and commutative, and the empty accumulator is neutral.
pub fn joining_is_merging()
    ensures associative { JoinIsAssociative }
    ensures commutative { JoinIsCommutative }
    ensures neutral { EmptyIsNeutral }
{}
