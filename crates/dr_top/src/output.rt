//! What a finished command prints.

ghost use Rattle.std.specs.Prelude.{◌≡◌, OnOk, OnErr};
ghost use Rattle.dr_outside.specs.Faults.{raised};
ghost use Rattle.dr_outside.specs.Sink.{AddedWhole, AddedFront};
ghost use Rattle.dr_top.specs.Printed.{printed};

use dr_gen::GenSource;
use dr_outside::{Failed, Sink, write_all};

/// What a finished command prints.
#[derive(Drop)]
pub enum Output {
    /// A text that is held whole.
    Text(String),
    /// The lines of made records, each of which is made as it is written.
    Made(GenSource),
}

impl Output {
    /// Writes all of it. After a failure some front of it was written, and nothing is written behind it.
    pub fn write_to<O: Sink>(&mut self, out: &mut O) -> Result<(), Failed>
        ensures whole { OnOk result (AddedWhole (O.shows out.old) (O.shows out.new) (printed self.old)) }
        ensures front { OnErr result (AddedFront (O.shows out.old) (O.shows out.new) (printed self.old)) }
        ensures cause { OnErr result ((O.shows out.new).faults ≡ raised (O.shows out.old).faults) }
        ensures calm { OnOk result ((O.shows out.new).faults ≡ (O.shows out.old).faults) }
    {
        match self {
            Output::Text(text) => write_all(out, text.as_bytes()),
            Output::Made(made) => made.write_to(out),
        }
    }
}
