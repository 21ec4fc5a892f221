// Laws of the nestings of query texts.

ghost use Rattle.dr_query_laws.specs.NestingLaws.{TooDeepStandsAtItsToken, OneNumberIsOpen, AcceptedNestsLittle};

/// A query text that is too deep stops at a token that opens a nesting, a parenthesis, a NOT or a minus sign, where
/// exactly 32 are open.
pub fn too_deep_stands_at_its_token()
    ensures { TooDeepStandsAtItsToken }
{}

/// How many nestings are open behind some tokens depends on these tokens alone.
pub fn one_number_is_open()
    ensures { OneNumberIsOpen }
{}

/// Each token of an accepted query text that opens a nesting stands where fewer than 32 are open.
pub fn accepted_nests_little()
    ensures { AcceptedNestsLittle }
{}
