// Laws of the tokens of schema text and query text.

ghost use Rattle.dr_meaning.specs.TokenLaws.{OneListOfQueryTokens, OneListOfTokens, QueryTokensAreText, TokensAreText};

/// The tokens of a schema text and the blanks between them are the text, each token at its place and the longest; so it
/// is of no other tokens.
pub fn schema_tokens_are_text()
    ensures text { TokensAreText }
    ensures no_other { OneListOfTokens }
{}

/// The tokens of a query text and the blanks between them are the text, each token at its place and the longest; so it
/// is of no other tokens.
pub fn query_tokens_are_text()
    ensures text { QueryTokensAreText }
    ensures no_other { OneListOfQueryTokens }
{}
