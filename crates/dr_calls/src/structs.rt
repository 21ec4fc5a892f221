//! Calls of `dr_compact` and `dr_meta`: structs that are read, and written again.

use crate::faults::{compact_name, meta_line};
use crate::texts::{line_of, push_hex};
use dr_case_lines::Broken;
use dr_compact::{Tree, read_struct, write_struct};
use dr_meta::{FileMeta, PageHead, tree_of_file, tree_of_page, view_file, view_page};
use std::alloc::Global;

/// The line of the bytes that are written for a struct.
fn written(alloc: Global, tree: &Tree<'_>) -> Result<String, Broken> {
    let mut out = Vec::new(alloc);
    write_struct(tree, &mut out)?;
    let mut text = String::new(alloc);
    push_hex(alloc, &mut text, &out)?;
    Ok(text)
}

/// The same behind how many bytes spelled it.
fn struct_lines(alloc: Global, tree: &Tree<'_>, length: usize) -> Result<String, Broken> {
    let again = written(alloc, tree)?;
    Ok(format!(in alloc; "{length} bytes\n{}", again.as_str())?)
}

/// `struct`: what is written for the struct with which bytes begin, and how many bytes spelled it; or the fault.
pub fn struct_again(alloc: Global, bytes: &[u8]) -> Result<String, Broken> {
    match read_struct(alloc, bytes) {
        Ok((tree, length)) => struct_lines(alloc, &tree, length),
        Err(fault) => line_of(alloc, compact_name(fault)),
    }
}

/// What is written for a file's metadata.
fn file_written(alloc: Global, meta: &FileMeta<'_, '_>) -> Result<String, Broken> {
    let tree = tree_of_file(alloc, meta)?;
    written(alloc, &tree)
}

/// What is written for the metadata of a file that a struct holds; or the fault.
fn file_lines(alloc: Global, tree: &Tree<'_>) -> Result<String, Broken> {
    match view_file(alloc, tree) {
        Ok(meta) => file_written(alloc, &meta),
        Err(fault) => meta_line(alloc, fault),
    }
}

/// `file`: what is written for the metadata of a file that bytes hold; or the fault.
pub fn file_again(alloc: Global, bytes: &[u8]) -> Result<String, Broken> {
    match read_struct(alloc, bytes) {
        Ok((tree, _)) => file_lines(alloc, &tree),
        Err(_) => Err(Broken::Form),
    }
}

/// What is written for a page header.
fn page_written(alloc: Global, head: &PageHead) -> Result<String, Broken> {
    let tree = tree_of_page(alloc, head)?;
    written(alloc, &tree)
}

/// What is written for the page header that a struct holds; or the fault.
fn page_lines(alloc: Global, tree: &Tree<'_>) -> Result<String, Broken> {
    match view_page(tree) {
        Ok(head) => page_written(alloc, &head),
        Err(fault) => meta_line(alloc, fault),
    }
}

/// `page`: the same of a page header.
pub fn page_again(alloc: Global, bytes: &[u8]) -> Result<String, Broken> {
    match read_struct(alloc, bytes) {
        Ok((tree, _)) => page_lines(alloc, &tree),
        Err(_) => Err(Broken::Form),
    }
}
