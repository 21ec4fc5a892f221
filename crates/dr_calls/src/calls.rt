//! The calls by their names.

use crate::cuts::cut_up;
use crate::hybrids::{decoded, decoded_levels, encoded_levels, read_back};
use crate::leaves::{leaves_counted, place_found};
use crate::lines::lines_cut;
use crate::made::{lines_made, record_made};
use crate::numbers::{signed, turned, varint_read, varint_written};
use crate::pages::page_by_pieces;
use crate::pieces::{plain_by_pieces, runs_by_pieces};
use crate::records::record_read;
use crate::runs::runs_read;
use crate::streams::stream_read;
use crate::structs::{file_again, page_again, struct_again};
use crate::values::{picked, plain_read};
use crate::walks::{columns_walked, records_walked};
use dr_case_lines::Broken;
use std::alloc::Global;

/// What the call answers whose name is the first word.
pub fn answer(alloc: Global, words: &[String], bytes: &[u8]) -> Result<String, Broken> {
    let name = words.first().ok_or(Broken::Form)?;
    match name.as_str() {
        "cut" => cut_up(alloc, words, bytes),
        "varint" => varint_read(alloc, bytes),
        "write_varint" => varint_written(alloc, words),
        "zigzag" => turned(alloc, words),
        "from_zigzag" => signed(alloc, words),
        "decode" => decoded(alloc, words, bytes),
        "decode_levels" => decoded_levels(alloc, words, bytes),
        "runs" => runs_read(alloc, words, bytes),
        "read_runs" => runs_by_pieces(alloc, words, bytes),
        "encode_levels" => encoded_levels(alloc, words, bytes),
        "read_back" => read_back(alloc, words),
        _ => answer_more(alloc, name.as_str(), words, bytes),
    }
}

/// What another call answers.
fn answer_more(
    alloc: Global,
    name: &str,
    words: &[String],
    bytes: &[u8],
) -> Result<String, Broken> {
    match name {
        "read_plain" => plain_read(alloc, words, bytes),
        "plain_pieces" => plain_by_pieces(alloc, words, bytes),
        "page_pieces" => page_by_pieces(alloc, words, bytes),
        "pick" => picked(alloc, words, bytes),
        "struct" => struct_again(alloc, bytes),
        "file" => file_again(alloc, bytes),
        "page" => page_again(alloc, bytes),
        "record" => record_read(alloc, words, bytes),
        "lines" => lines_cut(alloc, words, bytes),
        "count_leaves" => leaves_counted(alloc, bytes),
        "leaf_place" => place_found(alloc, words, bytes),
        "made" => lines_made(alloc, words),
        "made_record" => record_made(alloc, words),
        "stream" => stream_read(alloc, words, bytes),
        "walk" => records_walked(alloc, words, bytes),
        "walk_columns" => columns_walked(alloc, words, bytes),
        _ => Err(Broken::Form),
    }
}
