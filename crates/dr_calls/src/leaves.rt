//! Calls about the leaves of a file, whose metadata bytes hold.

use crate::texts::{argument, line_of};
use dr_case_lines::Broken;
use dr_compact::{Tree, read_struct};
use dr_meta::{SchemaItem, count_leaves, view_file};
use dr_nested::{Path, Schema, find, parse_schema};
use dr_open::leaf_place;
use std::alloc::Global;

/// A number, or `none`.
fn number_or_none(alloc: Global, number: Option<usize>) -> Result<String, Broken> {
    match number {
        Some(number) => Ok(format!(in alloc; "{number}\n")?),
        None => line_of(alloc, "none"),
    }
}

/// How many leaves elements have, where they are one tree.
fn count_line(alloc: Global, items: &[SchemaItem<'_>]) -> Result<String, Broken> {
    number_or_none(alloc, count_leaves(alloc, items)?)
}

/// How many leaves a file has whose metadata a struct holds.
fn count_in(alloc: Global, tree: &Tree<'_>) -> Result<String, Broken> {
    match view_file(alloc, tree) {
        Ok(meta) => count_line(alloc, &meta.schema),
        Err(_) => Err(Broken::Form),
    }
}

/// `count_leaves`: how many leaves there are, where the elements are one tree.
pub fn leaves_counted(alloc: Global, bytes: &[u8]) -> Result<String, Broken> {
    match read_struct(alloc, bytes) {
        Ok((tree, _)) => count_in(alloc, &tree),
        Err(_) => Err(Broken::Form),
    }
}

/// The place of a path among the leaves of elements, where these are one tree.
fn place_line(alloc: Global, items: &[SchemaItem<'_>], path: &Path) -> Result<String, Broken> {
    match count_leaves(alloc, items)? {
        Some(_) => number_or_none(alloc, leaf_place(items, path)),
        None => Err(Broken::Form),
    }
}

/// The same of a file whose metadata a struct holds.
fn place_in(alloc: Global, tree: &Tree<'_>, path: &Path) -> Result<String, Broken> {
    match view_file(alloc, tree) {
        Ok(meta) => place_line(alloc, &meta.schema, path),
        Err(_) => Err(Broken::Form),
    }
}

/// The same of a file whose metadata bytes hold.
fn place_in_bytes(alloc: Global, bytes: &[u8], path: &Path) -> Result<String, Broken> {
    match read_struct(alloc, bytes) {
        Ok((tree, _)) => place_in(alloc, &tree, path),
        Err(_) => Err(Broken::Form),
    }
}

/// The place of a schema's leaf among those of the file.
fn place_of(alloc: Global, schema: &Schema, name: &str, bytes: &[u8]) -> Result<String, Broken> {
    match find(alloc, schema, name) {
        Ok(path) => place_in_bytes(alloc, bytes, &path),
        Err(_) => Err(Broken::Form),
    }
}

/// `leaf_place PATH SCHEMA`: the place of a schema's leaf among those of the file.
pub fn place_found(alloc: Global, words: &[String], bytes: &[u8]) -> Result<String, Broken> {
    let name = argument(words, 0)?;
    let text = argument(words, 1)?;
    match parse_schema(alloc, text.as_bytes()) {
        Ok(schema) => place_of(alloc, &schema, name, bytes),
        Err(_) => Err(Broken::Form),
    }
}
