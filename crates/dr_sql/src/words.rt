//! Names that are reserved words.

ghost use Rattle.std.specs.Prelude.{◌≡◌, MatchOption, bytes_eq, true};
ghost use Rattle.std.specs.List.{list_all};
ghost use Rattle.std.specs.Str.{str_to_ascii_uppercase};
ghost use Rattle.dr_meaning.specs.Tokens as language;
ghost use Rattle.dr_sql.specs.TokenViews.{word_view};
ghost use Rattle.dr_sql.specs.Lexing.{is_capital};

use crate::word::Word;

/// Whether a name is these capitals, without regard to case.
fn spells(name: &str, capitals: &str) -> bool
    requires { list_all is_capital capitals.now ≡ true }
    ensures { result ≡ bytes_eq (str_to_ascii_uppercase name.now) capitals.now }
{
    name.eq_ignore_ascii_case(capitals)
}

/// The reserved word that a name is.
pub fn word_of(name: &str) -> Option<Word>
    ensures { MatchOption result (language.name_token name.now ≡ language.identifier name.now)
        (λ w. language.name_token name.now ≡ language.reserved (word_view w)) }
{
    if spells(name, "SELECT") {
        Some(Word::Select)
    } else if spells(name, "FROM") {
        Some(Word::From)
    } else if spells(name, "WHERE") {
        Some(Word::Where)
    } else if spells(name, "GROUP") {
        Some(Word::Group)
    } else if spells(name, "BY") {
        Some(Word::By)
    } else if spells(name, "AS") {
        Some(Word::As)
    } else if spells(name, "WITHIN") {
        Some(Word::Within)
    } else if spells(name, "RECORD") {
        Some(Word::Record)
    } else if spells(name, "AND") {
        Some(Word::And)
    } else if spells(name, "OR") {
        Some(Word::Or)
    } else if spells(name, "NOT") {
        Some(Word::Not)
    } else if spells(name, "LIKE") {
        Some(Word::Like)
    } else if spells(name, "CONTAINS") {
        Some(Word::Contains)
    } else if spells(name, "IS") {
        Some(Word::Is)
    } else if spells(name, "NULL") {
        Some(Word::Null)
    } else if spells(name, "TRUE") {
        Some(Word::True)
    } else if spells(name, "FALSE") {
        Some(Word::False)
    } else if spells(name, "COUNT") {
        Some(Word::Count)
    } else if spells(name, "SUM") {
        Some(Word::Sum)
    } else if spells(name, "MIN") {
        Some(Word::Min)
    } else if spells(name, "MAX") {
        Some(Word::Max)
    } else if spells(name, "DISTINCT") {
        Some(Word::Distinct)
    } else if spells(name, "ORDER") {
        Some(Word::Order)
    } else if spells(name, "LIMIT") {
        Some(Word::Limit)
    } else if spells(name, "ASC") {
        Some(Word::Asc)
    } else if spells(name, "DESC") {
        Some(Word::Desc)
    } else {
        None
    }
}
