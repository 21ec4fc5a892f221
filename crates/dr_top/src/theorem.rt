//! The theorem to read first: a query over a table in memory.

ghost use Rattle.std.specs.Prelude.{◌≡◌, ◌≤◌, length, map, string_bytes, IsTrue};
ghost use Rattle.dr_outside.specs.Failing.{is_quiet};
ghost use Rattle.dr_outside.specs.Link.{Files};
ghost use Rattle.dr_outside.specs.Shelf.{files_of, shelf_failing};
ghost use Rattle.dr_top.specs.Theorem.{AllOver, AsksTable, PrintsText, answer_of};

use crate::running::run;
use dr_outside::{MemLink, MemSink, MemSource, Shelf};
use std::alloc::Global;
use std::sync::Wait;
use std::thread::Threads;

/// Runs the program, for a query, over things in memory: `tables` has the table file, and the links are over the files
/// of the tablets' copies.
///
/// Whatever the schema, the records, the table, the query, the number of workers and the tree: the program ends with 0
/// and has printed exactly what the query means on the records of all tablets, each counted once, or memory ran out.
/// Some copies may be broken or missing, as long as each tablet has one that is a file of its records.
pub fn query_in_memory<R: Threads + Wait + Sync>(
    rt: &R,
    alloc: Global,
    words: &[String],
    tables: &mut Shelf,
    links: &mut [MemLink<'_>],
    out: &mut MemSink,
) -> u8
    requires links { 16 ≤ length links.old }
    requires quiet { IsTrue (is_quiet (shelf_failing tables.old)) }
    ensures answer { (files : Files) → AllOver files links.old
        → (asked : AsksTable (map string_bytes words.now) (files_of tables.old) files)
        → PrintsText (answer_of asked) result out.old out.new }
{
    let mut input = MemSource::new(&[], Vec::new(alloc));
    let mut err = MemSink::new(alloc, Vec::new(alloc));
    run(rt, alloc, words, &mut input, out, &mut err, tables, links)
}
