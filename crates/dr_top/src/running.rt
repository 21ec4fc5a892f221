//! The whole program as one call.

ghost use Rattle.std.specs.Prelude.{◌≡◌, ◌≢◌, ◌≤◌, ◌⊎◌, length, map, string_bytes};
ghost use Rattle.dr_words.specs.Words.{Taken, meant};
ghost use Rattle.dr_top.specs.World.{world};
ghost use Rattle.dr_top.specs.Ends.{Holds, Prints, IsUsage, IsRefused, IsLeft, PrintsMost, IsOutside, IsMemory, SameCounts, LeavesInput, LeavesFiles, AsksKeeper, AsksLinks, LeavesLinks, IsComplete, IsServed};

use crate::commands::answer;
use crate::left_file::left_file_report;
use crate::reply::Reply;
use crate::stop::Stop;
use crate::talking::hold_session;
use crate::telling::say;
use dr_outside::{Keeper, Link, Sink, Source, write_all};
use dr_table::left_text;
use dr_words::USAGE;
use std::alloc::Global;
use std::sync::Wait;
use std::thread::Threads;

/// Does what the words ask, of which the first is the program's name, and answers the program's status.
///
/// 0: the whole text was written, and the input was read to its end, where the command reads it. 1: the words ask for
/// nothing. 2: the schema, the table, a FIELD, the directories, the query or a line of the input is refused, the first
/// that the command looks at. 3: tablets of a table are left, or the file of `schema`, each with its cause. 4: the
/// source, the sink or the keeper failed. 5: want of memory. 6: tablets are left, each with its cause, and the whole
/// text of the others was written, which are the share that the words ask for. What isn't 0 has a line on standard
/// error. A session writes the text of each line before it reads the next; no other command writes before its end is
/// known.
///
/// The clauses speak of what the things outside show before the call and after it.
pub fn run<R: Threads + Wait + Sync, S: Source, O: Sink, E: Sink, K: Keeper, L: Link + Send>(
    rt: &R,
    alloc: Global,
    words: &[String],
    source: &mut S,
    out: &mut O,
    err: &mut E,
    keeper: &mut K,
    links: &mut [L],
) -> u8
    requires links { 16 ≤ length links.old }
    ensures prints { result ≡ 0 → Holds (meant (map string_bytes words.now)) Prints
        (world (S.shows source.old) (O.shows out.old) (E.shows err.old) (K.shows keeper.old) (map L.shows links.old))
        (world (S.shows source.new) (O.shows out.new) (E.shows err.new) (K.shows keeper.new) (map L.shows links.new)) }
    ensures usage { result ≡ 1 → IsUsage (meant (map string_bytes words.now))
        (world (S.shows source.old) (O.shows out.old) (E.shows err.old) (K.shows keeper.old) (map L.shows links.old))
        (world (S.shows source.new) (O.shows out.new) (E.shows err.new) (K.shows keeper.new) (map L.shows links.new)) }
    ensures taken { Taken (map string_bytes words.now) → result ≢ 1 }
    ensures refused { result ≡ 2 → Holds (meant (map string_bytes words.now)) IsRefused
        (world (S.shows source.old) (O.shows out.old) (E.shows err.old) (K.shows keeper.old) (map L.shows links.old))
        (world (S.shows source.new) (O.shows out.new) (E.shows err.new) (K.shows keeper.new) (map L.shows links.new)) }
    ensures left { result ≡ 3 → Holds (meant (map string_bytes words.now)) IsLeft
        (world (S.shows source.old) (O.shows out.old) (E.shows err.old) (K.shows keeper.old) (map L.shows links.old))
        (world (S.shows source.new) (O.shows out.new) (E.shows err.new) (K.shows keeper.new) (map L.shows links.new)) }
    ensures outside { result ≡ 4 → Holds (meant (map string_bytes words.now)) IsOutside
        (world (S.shows source.old) (O.shows out.old) (E.shows err.old) (K.shows keeper.old) (map L.shows links.old))
        (world (S.shows source.new) (O.shows out.new) (E.shows err.new) (K.shows keeper.new) (map L.shows links.new)) }
    ensures memory { result ≡ 5 → IsMemory (meant (map string_bytes words.now))
        (world (S.shows source.old) (O.shows out.old) (E.shows err.old) (K.shows keeper.old) (map L.shows links.old))
        (world (S.shows source.new) (O.shows out.new) (E.shows err.new) (K.shows keeper.new) (map L.shows links.new)) }
    ensures most { result ≡ 6 → Holds (meant (map string_bytes words.now)) PrintsMost
        (world (S.shows source.old) (O.shows out.old) (E.shows err.old) (K.shows keeper.old) (map L.shows links.old))
        (world (S.shows source.new) (O.shows out.new) (E.shows err.new) (K.shows keeper.new) (map L.shows links.new)) }
    ensures known { result ≤ 6 }

    // At every status.
    ensures calm { result ≢ 4 → SameCounts
        (world (S.shows source.old) (O.shows out.old) (E.shows err.old) (K.shows keeper.old) (map L.shows links.old))
        (world (S.shows source.new) (O.shows out.new) (E.shows err.new) (K.shows keeper.new) (map L.shows links.new)) }
    ensures unread { LeavesInput (meant (map string_bytes words.now))
        (world (S.shows source.old) (O.shows out.old) (E.shows err.old) (K.shows keeper.old) (map L.shows links.old))
        (world (S.shows source.new) (O.shows out.new) (E.shows err.new) (K.shows keeper.new) (map L.shows links.new)) }
    ensures files { LeavesFiles (meant (map string_bytes words.now))
        (world (S.shows source.old) (O.shows out.old) (E.shows err.old) (K.shows keeper.old) (map L.shows links.old))
        (world (S.shows source.new) (O.shows out.new) (E.shows err.new) (K.shows keeper.new) (map L.shows links.new)) }
    ensures asks { AsksKeeper (meant (map string_bytes words.now))
        (world (S.shows source.old) (O.shows out.old) (E.shows err.old) (K.shows keeper.old) (map L.shows links.old))
        (world (S.shows source.new) (O.shows out.new) (E.shows err.new) (K.shows keeper.new) (map L.shows links.new)) }
    ensures links { LeavesLinks (meant (map string_bytes words.now))
        (world (S.shows source.old) (O.shows out.old) (E.shows err.old) (K.shows keeper.old) (map L.shows links.old))
        (world (S.shows source.new) (O.shows out.new) (E.shows err.new) (K.shows keeper.new) (map L.shows links.new)) }
    ensures reads { AsksLinks (meant (map string_bytes words.now))
        (world (S.shows source.old) (O.shows out.old) (E.shows err.old) (K.shows keeper.old) (map L.shows links.old))
        (world (S.shows source.new) (O.shows out.new) (E.shows err.new) (K.shows keeper.new) (map L.shows links.new)) }
    ensures served { IsServed (meant (map string_bytes words.now)) result
        (world (S.shows source.old) (O.shows out.old) (E.shows err.old) (K.shows keeper.old) (map L.shows links.old)) }
    ensures complete { IsComplete (meant (map string_bytes words.now)) result
        (world (S.shows source.old) (O.shows out.old) (E.shows err.old) (K.shows keeper.old) (map L.shows links.old))
        (world (S.shows source.new) (O.shows out.new) (E.shows err.new) (K.shows keeper.new) (map L.shows links.new)) }
{
    match answer(rt, alloc, words, source, keeper, links) {
        Ok(Reply::Whole(mut output)) => match output.write_to(out) {
            Ok(()) => 0,
            Err(_) => {
                say(err, b"outside: out\n");
                4
            }
        },
        Ok(Reply::Talk(schema)) => hold_session(rt, alloc, &schema, source, out, err),
        Err(Stop::Usage) => {
            say(err, USAGE.as_bytes());
            1
        }
        Err(Stop::NoMemory) => {
            say(err, b"no memory\n");
            5
        }
        Err(Stop::Source) => {
            say(err, b"outside: source\n");
            4
        }
        Err(Stop::Keeper) => {
            say(err, b"outside: keeper\n");
            4
        }
        Err(Stop::Refused(refusal)) => {
            say(err, refusal.report().bytes());
            2
        }
        Err(Stop::Left(left)) => match left_text(alloc, &left) {
            Ok(text) => {
                say(err, text.as_bytes());
                3
            }
            Err(_) => {
                say(err, b"no memory\n");
                5
            }
        },
        Err(Stop::Most { text, left }) => match left_text(alloc, &left) {
            Ok(report) => match write_all(out, text.as_bytes()) {
                Ok(()) => {
                    say(err, report.as_bytes());
                    6
                }
                Err(_) => {
                    say(err, b"outside: out\n");
                    4
                }
            },
            Err(_) => {
                say(err, b"no memory\n");
                5
            }
        },
        Err(Stop::LeftFile(cause)) => {
            say(err, left_file_report(cause).bytes());
            3
        }
    }
}
