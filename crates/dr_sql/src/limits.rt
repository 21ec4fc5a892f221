//! The limits of queries.

ghost use Rattle.std.specs.Prelude.{◌≡◌};
ghost use Rattle.dr_meaning.specs.Tokens.{longest_query};
ghost use Rattle.dr_meaning.specs.Parse.{greatest_nesting, most_items, most_operators};

/// The greatest length of a query's text, in bytes.
pub const LONGEST_QUERY: usize = 65_536;

/// How many parentheses, NOTs before an operand and minus signs before one may be open at once.
pub const GREATEST_NESTING: u32 = 32;

/// How many items, and how many keys, a query may have.
pub const MOST_ITEMS: usize = 256;

/// How many tokens among `+ - *` AND OR a query may have, the star of `COUNT(*)` among them.
pub const MOST_OPERATORS: usize = 512;

/// A law: these are the limits of the definitions.
pub fn query_limits_are_as_defined()
    ensures length { LONGEST_QUERY ≡ longest_query }
    ensures nesting { GREATEST_NESTING ≡ greatest_nesting }
    ensures items { MOST_ITEMS ≡ most_items }
    ensures operators { MOST_OPERATORS ≡ most_operators }
{}
