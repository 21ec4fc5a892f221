//! A cursor over the tokens of a query's text.

ghost use Rattle.std.specs.Prelude.{◌≡◌, ◌≤◌, if◌then◌else◌, option_map, length};
ghost use Rattle.dr_meaning.specs.Parse as parse;
ghost use Rattle.dr_sql.specs.TokenViews.{token_view, word_view, sign_view};

use crate::fault::{QueryFault, QueryProblem};
use crate::limits::MOST_OPERATORS;
use crate::token::{PlacedToken, Token};
use crate::word::{Sign, Word};

/// The tokens of a text with how many of them were read, the text's length, and how many of `+ - *` AND OR were read.
#[derive(Drop)]
pub struct Cursor<'t, 'a> {
    pub tokens: &'t [PlacedToken<'a>],
    pub read: usize,
    pub size: usize,
    pub operators: usize,
    ghost within: { read ≤ length tokens.now },
}

impl<'a> Cursor<'_, 'a> {
    ghost use Rattle.dr_sql.specs.Reads.{unread, Reads, same, IsFaultOf};
    ghost use Rattle.dr_sql.specs.Views.{lent};
    ghost use Rattle.dr_sub_meaning.specs.NestedParse.{number_in};
    ghost use Rattle.dr_sql.specs.TokenViews.{undoubled};

    /// How many tokens are left.
    pub fn left(&self) -> usize
        ensures { result ≡ length (unread self.now).tokens }
    {
        self.tokens.len() - self.read
    }

    /// The next token, which stays unread.
    pub fn next(&self) -> Option<Token<'a>>
        ensures { option_map token_view result ≡ parse.first_token (unread self.now).tokens }
    {
        match self.tokens.get(self.read) {
            Some(placed) => Some(placed.token),
            None => None,
        }
    }

    /// The place of the next token; at the end the text's length.
    pub fn place(&self) -> usize
        ensures { result ≡ parse.place_of (unread self.now) }
    {
        match self.tokens.get(self.read) {
            Some(placed) => placed.place,
            None => self.size,
        }
    }

    /// The fault that the next token is.
    pub fn fault(&self, problem: QueryProblem) -> QueryFault
        ensures { result ≡ QueryFault.Refused (parse.place_of (unread self.now)) problem }
    {
        QueryFault::Refused {
            place: self.place(),
            problem,
        }
    }

    /// The fault of an item or key too many, where the next token begins one, or else that it begins none.
    pub fn one_too_many(&self, begins: bool) -> QueryFault
        ensures { result ≡ QueryFault.Refused (parse.place_of (unread self.now))
            (if begins then QueryProblem.TooMany else QueryProblem.Syntax) }
    {
        if begins {
            self.fault(QueryProblem::TooMany)
        } else {
            self.fault(QueryProblem::Syntax)
        }
    }

    /// Whether the next token is this word.
    pub fn next_is_word(&self, wanted: Word) -> bool
        ensures { result ≡ parse.next_is (parse.is_the_word (word_view wanted)) (unread self.now) }
    {
        match self.next() {
            Some(Token::Word(word)) => word == wanted,
            _ => false,
        }
    }

    /// Whether the next token is this sign.
    pub fn next_is_sign(&self, wanted: Sign) -> bool
        ensures { result ≡ parse.next_is (parse.is_the_sign (sign_view wanted)) (unread self.now) }
    {
        match self.next() {
            Some(Token::Sign(sign)) => sign == wanted,
            _ => false,
        }
    }

    /// Reads the next token, for its place.
    pub fn advance(&mut self) -> usize
        ensures { parse.any_token (unread self.old) ≡ parse.got result (unread self.new) }
    {
        let place = self.place();
        if self.read < self.tokens.len() {
            self.read += 1;
        }
        place
    }

    /// Reads the next token, one of `+ - *` AND OR, for its place.
    ///
    /// Errors: as many as there may be were read before.
    pub fn operator(&mut self) -> Result<usize, QueryFault>
        ensures { Reads same (parse.operator (unread self.old)) (unread self.new) result }
    {
        if self.operators >= MOST_OPERATORS {
            return Err(self.fault(QueryProblem::TooMany));
        }
        self.operators += 1;
        Ok(self.advance())
    }

    /// Reads this word, for its place.
    ///
    /// Errors: another token is next.
    pub fn word(&mut self, wanted: Word) -> Result<usize, QueryFault>
        ensures { Reads same (parse.word (word_view wanted) (unread self.old)) (unread self.new) result }
    {
        if self.next_is_word(wanted) {
            Ok(self.advance())
        } else {
            Err(self.fault(QueryProblem::Syntax))
        }
    }

    /// Reads this sign, for its place.
    ///
    /// Errors: another token is next.
    pub fn sign(&mut self, wanted: Sign) -> Result<usize, QueryFault>
        ensures { Reads same (parse.mark (sign_view wanted) (unread self.old)) (unread self.new) result }
    {
        if self.next_is_sign(wanted) {
            Ok(self.advance())
        } else {
            Err(self.fault(QueryProblem::Syntax))
        }
    }

    /// Reads a name.
    ///
    /// Errors: another token is next.
    pub fn name(&mut self) -> Result<&'a str, QueryFault>
        ensures { Reads lent (parse.name (unread self.old)) (unread self.new) result }
    {
        match self.next() {
            Some(Token::Name(name)) => {
                self.advance();
                Ok(name)
            }
            _ => Err(self.fault(QueryProblem::Syntax)),
        }
    }

    /// Reads a number.
    ///
    /// Errors: another token is next.
    pub fn number(&mut self) -> Result<u64, QueryFault>
        ensures { Reads same (parse.token_as number_in (unread self.old)) (unread self.new) result }
    {
        match self.next() {
            Some(Token::Number(number)) => {
                self.advance();
                Ok(number.value)
            }
            _ => Err(self.fault(QueryProblem::Syntax)),
        }
    }

    /// Reads a text, as it stands between its quotes.
    ///
    /// Errors: another token is next.
    pub fn text(&mut self) -> Result<&'a str, QueryFault>
        ensures { Reads (λ t. undoubled (lent t)) (parse.quoted_text (unread self.old)) (unread self.new) result }
    {
        match self.next() {
            Some(Token::Text(text)) => {
                self.advance();
                Ok(text)
            }
            _ => Err(self.fault(QueryProblem::Syntax)),
        }
    }
}
