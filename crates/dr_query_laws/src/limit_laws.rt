// Laws of the limits of query texts.

ghost use Rattle.dr_query_laws.specs.LimitLaws.{TooManyStandsAtItsToken, AcceptedHasFewOperators, AcceptedHasFewItems, AcceptedHasFewKeys};

/// A query text that has too many stops at the 513th token among + - * AND OR, or at the first token of the 257th item
/// or of the 257th key.
pub fn too_many_stands_at_its_token()
    ensures { TooManyStandsAtItsToken }
{}

/// The tokens of an accepted query text have at most 512 among + - * AND OR.
pub fn accepted_has_few_operators()
    ensures { AcceptedHasFewOperators }
{}

/// An accepted query text has at most 256 items and at most 256 keys.
pub fn accepted_has_few_items_and_keys()
    ensures items { AcceptedHasFewItems }
    ensures keys { AcceptedHasFewKeys }
{}
