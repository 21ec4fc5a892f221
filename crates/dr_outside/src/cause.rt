ghost use Rattle.std.specs.Prelude.{◌≡◌, Some};

use std::fmt;

/// Why a file of a table gave no answer.
#[derive(Clone, Copy, Debug, PartialEq, Eq)]
pub enum Cause {
    /// The link failed, and its count of faults went from `before` to `after`.
    ReadFailed { before: u64, after: u64 },
    BadFooter,
    BadSchema,
    BadCodec,
    BadData,
}

impl Cause {
    ghost use Rattle.dr_outside.specs.Cause.{name_of};

    /// The word that is printed for the cause.
    pub fn name(self) -> &'static str
        ensures { result.now ≡ name_of self }
    {
        match self {
            Cause::ReadFailed { .. } => "read",
            Cause::BadFooter => "footer",
            Cause::BadSchema => "schema",
            Cause::BadCodec => "codec",
            Cause::BadData => "data",
        }
    }
}

impl fmt::Display for Cause {
    ghost use Rattle.dr_outside.specs.Cause.{name_of};

    ghost output = { λ cause. Some (name_of cause) };

    fn fmt<W: fmt::Write>(&self, f: &mut fmt::Formatter<W>) -> fmt::Result {
        f.write_str(self.name())
    }
}
