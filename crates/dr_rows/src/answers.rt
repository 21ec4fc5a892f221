//! Answers of a test, one after another.

ghost use Rattle.std.specs.Prelude.{◌≡◌, drop};
ghost use Rattle.dr_meaning.specs.Lists.{first_answer};

/// The answers that are left.
#[derive(Clone, Copy)]
pub struct Answers<'a> {
    pub rest: &'a [bool],
}

impl<'a> Answers<'a> {
    /// The next answer; at the end no.
    pub fn next(&mut self) -> bool
        ensures answer { result ≡ first_answer (self.old).rest.now }
        ensures rest { (self.new).rest.now ≡ drop 1 (self.old).rest.now }
    {
        match self.rest {
            [] => false,
            [first, rest @ ..] => {
                self.rest = rest;
                *first
            }
        }
    }
}
