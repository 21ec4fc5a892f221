//! Commands.

ghost use Rattle.std.specs.Prelude.{◌≡◌, ◌≢◌, ◌≤◌, ◌⊎◌, length, map, string_bytes};
ghost use Rattle.dr_words.specs.Words.{Taken, meant};
ghost use Rattle.dr_top.specs.World.{world};
ghost use Rattle.dr_top.specs.Ends.{Holds, Prints, IsUsage, IsRefused, IsLeft, PrintsMost, IsOutside, IsMemory, SameCounts, LeavesInput, LeavesFiles, AsksKeeper, AsksLinks, LeavesLinks, IsComplete, IsServed};

use dr_outside::{Keeper, Link, Sink, Source};
use dr_top::run;
use std::alloc::Global;
use std::sync::Wait;
use std::thread::Threads;

/// As `run`.
pub fn status_of<R: Threads + Wait + Sync, S: Source, O: Sink, E: Sink, K: Keeper, L: Link + Send>(
    rt: &R,
    alloc: Global,
    words: &[String],
    source: &mut S,
    out: &mut O,
    err: &mut E,
    keeper: &mut K,
    links: &mut [L],
) -> u8
    requires links { 16 ≤ length links.old }
    ensures prints { result ≡ 0 → Holds (meant (map string_bytes words.now)) Prints
        (world (S.shows source.old) (O.shows out.old) (E.shows err.old) (K.shows keeper.old) (map L.shows links.old))
        (world (S.shows source.new) (O.shows out.new) (E.shows err.new) (K.shows keeper.new) (map L.shows links.new)) }
    ensures usage { result ≡ 1 → IsUsage (meant (map string_bytes words.now))
        (world (S.shows source.old) (O.shows out.old) (E.shows err.old) (K.shows keeper.old) (map L.shows links.old))
        (world (S.shows source.new) (O.shows out.new) (E.shows err.new) (K.shows keeper.new) (map L.shows links.new)) }
    ensures taken { Taken (map string_bytes words.now) → result ≢ 1 }
    ensures refused { result ≡ 2 → Holds (meant (map string_bytes words.now)) IsRefused
        (world (S.shows source.old) (O.shows out.old) (E.shows err.old) (K.shows keeper.old) (map L.shows links.old))
        (world (S.shows source.new) (O.shows out.new) (E.shows err.new) (K.shows keeper.new) (map L.shows links.new)) }
    ensures left { result ≡ 3 → Holds (meant (map string_bytes words.now)) IsLeft
        (world (S.shows source.old) (O.shows out.old) (E.shows err.old) (K.shows keeper.old) (map L.shows links.old))
        (world (S.shows source.new) (O.shows out.new) (E.shows err.new) (K.shows keeper.new) (map L.shows links.new)) }
    ensures outside { result ≡ 4 → Holds (meant (map string_bytes words.now)) IsOutside
        (world (S.shows source.old) (O.shows out.old) (E.shows err.old) (K.shows keeper.old) (map L.shows links.old))
        (world (S.shows source.new) (O.shows out.new) (E.shows err.new) (K.shows keeper.new) (map L.shows links.new)) }
    ensures memory { result ≡ 5 → IsMemory (meant (map string_bytes words.now))
        (world (S.shows source.old) (O.shows out.old) (E.shows err.old) (K.shows keeper.old) (map L.shows links.old))
        (world (S.shows source.new) (O.shows out.new) (E.shows err.new) (K.shows keeper.new) (map L.shows links.new)) }
    ensures most { result ≡ 6 → Holds (meant (map string_bytes words.now)) PrintsMost
        (world (S.shows source.old) (O.shows out.old) (E.shows err.old) (K.shows keeper.old) (map L.shows links.old))
        (world (S.shows source.new) (O.shows out.new) (E.shows err.new) (K.shows keeper.new) (map L.shows links.new)) }
    ensures known { result ≤ 6 }

    // At every status.
    ensures calm { result ≢ 4 → SameCounts
        (world (S.shows source.old) (O.shows out.old) (E.shows err.old) (K.shows keeper.old) (map L.shows links.old))
        (world (S.shows source.new) (O.shows out.new) (E.shows err.new) (K.shows keeper.new) (map L.shows links.new)) }
    ensures unread { LeavesInput (meant (map string_bytes words.now))
        (world (S.shows source.old) (O.shows out.old) (E.shows err.old) (K.shows keeper.old) (map L.shows links.old))
        (world (S.shows source.new) (O.shows out.new) (E.shows err.new) (K.shows keeper.new) (map L.shows links.new)) }
    ensures files { LeavesFiles (meant (map string_bytes words.now))
        (world (S.shows source.old) (O.shows out.old) (E.shows err.old) (K.shows keeper.old) (map L.shows links.old))
        (world (S.shows source.new) (O.shows out.new) (E.shows err.new) (K.shows keeper.new) (map L.shows links.new)) }
    ensures asks { AsksKeeper (meant (map string_bytes words.now))
        (world (S.shows source.old) (O.shows out.old) (E.shows err.old) (K.shows keeper.old) (map L.shows links.old))
        (world (S.shows source.new) (O.shows out.new) (E.shows err.new) (K.shows keeper.new) (map L.shows links.new)) }
    ensures links { LeavesLinks (meant (map string_bytes words.now))
        (world (S.shows source.old) (O.shows out.old) (E.shows err.old) (K.shows keeper.old) (map L.shows links.old))
        (world (S.shows source.new) (O.shows out.new) (E.shows err.new) (K.shows keeper.new) (map L.shows links.new)) }
    ensures reads { AsksLinks (meant (map string_bytes words.now))
        (world (S.shows source.old) (O.shows out.old) (E.shows err.old) (K.shows keeper.old) (map L.shows links.old))
        (world (S.shows source.new) (O.shows out.new) (E.shows err.new) (K.shows keeper.new) (map L.shows links.new)) }
    ensures served { IsServed (meant (map string_bytes words.now)) result
        (world (S.shows source.old) (O.shows out.old) (E.shows err.old) (K.shows keeper.old) (map L.shows links.old)) }
    ensures complete { IsComplete (meant (map string_bytes words.now)) result
        (world (S.shows source.old) (O.shows out.old) (E.shows err.old) (K.shows keeper.old) (map L.shows links.old))
        (world (S.shows source.new) (O.shows out.new) (E.shows err.new) (K.shows keeper.new) (map L.shows links.new)) }
{
    run(rt, alloc, words, source, out, err, keeper, links)
}
