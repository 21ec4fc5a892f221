//! A session over the input, with its status.

ghost use Rattle.std.specs.Prelude.{◌≡◌, ◌⊎◌};
ghost use Rattle.dr_nested.specs.SchemaView.{schema_view};
ghost use Rattle.dr_session.specs.Talking.{TalksToEnd};
ghost use Rattle.dr_top.specs.Held.{IsHeldRefused, IsHeldOutside, IsHeldWanting};

use crate::refusal::Refusal;
use crate::telling::say;
use dr_nested::Schema;
use dr_outside::{Sink, Source};
use dr_session::{TalkFault, talk};
use std::alloc::Global;
use std::sync::Wait;
use std::thread::Threads;

/// Holds a session over the input, and answers the program's status: 0 at the input's end, 2 where a line is refused, 4
/// where the source or the sink failed, 5 for want of memory. What isn't 0 has a line on standard error.
pub fn hold_session<R: Threads + Wait + Sync, S: Source, O: Sink, E: Sink>(
    rt: &R,
    alloc: Global,
    schema: &Schema,
    source: &mut S,
    out: &mut O,
    err: &mut E,
) -> u8
    ensures prints { result ≡ 0 → TalksToEnd (schema_view schema.now) (S.shows source.old) (S.shows source.new)
        (O.shows out.old) (O.shows out.new) }
    ensures silent { result ≡ 0 → E.shows err.new ≡ E.shows err.old }
    ensures refused { result ≡ 2 → IsHeldRefused (schema_view schema.now) (S.shows source.old) (S.shows source.new)
        (O.shows out.old) (O.shows out.new) (E.shows err.old) (E.shows err.new) }
    ensures outside { result ≡ 4 → IsHeldOutside (schema_view schema.now) (S.shows source.old) (S.shows source.new)
        (O.shows out.old) (O.shows out.new) (E.shows err.old) (E.shows err.new) }
    ensures memory { result ≡ 5 → IsHeldWanting (schema_view schema.now) (S.shows source.old) (S.shows source.new)
        (O.shows out.old) (O.shows out.new) (E.shows err.old) (E.shows err.new) }
    ensures known { (result ≡ 0) ⊎ ((result ≡ 2) ⊎ ((result ≡ 4) ⊎ (result ≡ 5))) }
{
    match talk(rt, alloc, schema, source, out) {
        Ok(()) => 0,
        Err(TalkFault::NoMemory) => {
            say(err, b"no memory\n");
            5
        }
        Err(TalkFault::Source) => {
            say(err, b"outside: source\n");
            4
        }
        Err(TalkFault::Out) => {
            say(err, b"outside: out\n");
            4
        }
        Err(TalkFault::Refused { line, problem }) => {
            let refusal = Refusal::Session {
                number: line,
                problem,
            };
            say(err, refusal.report().bytes());
            2
        }
    }
}
