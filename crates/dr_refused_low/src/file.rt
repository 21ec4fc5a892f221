//! Opened files.

ghost use Rattle.std.specs.Prelude.{◌≡◌, ◌≤◌, ◌<◌, ℕ, List, [], ◌∷◌, length, Some, None, Err, IfOk, IfErr, OnOk, OnErr};
ghost use Rattle.dr_meaning.specs.Path.{Leaf, max_definition};
ghost use Rattle.dr_formats.specs.File.{Footer, footer_of, most_triplets};
ghost use Rattle.dr_formats.specs.Opening.{leaf_cause};
ghost use Rattle.dr_levels.specs.Views.{column_view, column_form, form};
ghost use Rattle.dr_outside.specs.Telling.{Tells, AsksOnly};
ghost use Rattle.dr_chunk.specs.Taking.{BeginWith};
ghost use Rattle.dr_file.specs.Asking.{is_for_path, AsksForLeaves};
ghost use Rattle.dr_file.specs.OpenedFiles.{IsColumnOf, IsColumnFault, leaf_count, path_of, OverLeafAt, OverLeafByFooter};
ghost use Rattle.dr_file.specs.Leaving.{LeavesLinkCounted, ServesOpened};
ghost use Rattle.dr_file.specs.Streams.{IsOfLeaf, StreamGoesOn, file_of, stream_form, left_of, refused_of, fault_of, Fills, OverStream};

use dr_file::{FileFault, Opened, Stream};
use dr_levels::Column;
use dr_outside::Link;
use std::alloc::Global;

/// As `Opened::column`.
pub fn column_of<L: Link>(
    opened: &Opened,
    alloc: Global,
    link: &mut L,
    index: usize,
) -> Result<Column, FileFault>
    requires { index < leaf_count opened.now }
    ensures column { OverLeafAt opened.now index (λ bytes l. Tells (L.shows link.old) (path_of opened.now) bytes
        → IfOk result (λ c. IsColumnOf bytes l (column_view c))) }
    ensures cause { OverLeafAt opened.now index (λ bytes l. Tells (L.shows link.old) (path_of opened.now) bytes
        → IfErr result (λ e. IsColumnFault e (leaf_cause bytes l))) }
    ensures few { IfOk result (λ c. length (column_view c) ≤ most_triplets) }
    ensures form { OverLeafAt opened.now index (λ bytes l.
        IfOk result (λ c. column_form c ≡ form l.kind (max_definition l.path))) }
    ensures asked { OverLeafByFooter opened.now index (λ f l.
        AsksForLeaves f (l ∷ []) (path_of opened.now) (L.shows link.old) (L.shows link.new)) }
    ensures paths { AsksOnly (is_for_path (path_of opened.now)) (L.shows link.old).asked (L.shows link.new).asked }
    ensures link { LeavesLinkCounted result (ServesOpened (L.shows link.old) opened.now) (L.shows link.old)
        (L.shows link.new) }
{
    opened.column(alloc, link, index)
}

/// As `Stream::next`.
pub fn next_of_stream<L: Link>(
    stream: &mut Stream<'_>,
    alloc: Global,
    link: &mut L,
    out: &mut Column,
) -> Result<bool, FileFault>
    requires { column_form out.old ≡ stream_form stream.old }
    // What was given goes on by what joined the column; where nothing did, it was the leaf's column.
    ensures more { OverStream (L.shows link.old) stream.old (λ bytes l given.
        IfOk result (StreamGoesOn bytes l given (column_view out.old) (column_view out.new) stream.new)) }
    ensures cause { OverStream (L.shows link.old) stream.old (λ bytes l given.
        IfErr result (λ e. IsColumnFault e (leaf_cause bytes l))) }
    // Whatever the bytes: how many joined the column, which begins with what it was.
    ensures fills { IfOk result (λ some. Fills some (length (column_view out.old)) (length (column_view out.new))
        (left_of stream.old) (left_of stream.new)) }
    ensures front { OnOk result (BeginWith (column_view out.old) (column_view out.new)) }
    ensures stays { OnErr result (column_view out.new ≡ column_view out.old) }
    ensures form { column_form out.new ≡ column_form out.old }
    ensures stream_form { stream_form stream.new ≡ stream_form stream.old }
    ensures file { file_of stream.new ≡ file_of stream.old }
    ensures leaf { (bytes : List ℕ) (l : Leaf) → IsOfLeaf bytes l stream.old → IsOfLeaf bytes l stream.new }
    ensures asked { (bytes : List ℕ) (l : Leaf) (f : Footer) → IsOfLeaf bytes l stream.old
        → footer_of bytes ≡ Some f
        → AsksForLeaves f (l ∷ []) (path_of (file_of stream.old)) (L.shows link.old) (L.shows link.new) }
    ensures paths { AsksOnly (is_for_path (path_of (file_of stream.old))) (L.shows link.old).asked
        (L.shows link.new).asked }
    ensures link { refused_of stream.old ≡ None
        → LeavesLinkCounted result (ServesOpened (L.shows link.old) (file_of stream.old)) (L.shows link.old)
        (L.shows link.new) }
    // A refusal is one from then on.
    ensures refused { refused_of stream.new ≡ fault_of result }
    ensures again { (e : FileFault) → refused_of stream.old ≡ Some e → (result ≡ Err e)
        × (L.shows link.new ≡ L.shows link.old) }
{
    stream.next(alloc, link, out)
}
