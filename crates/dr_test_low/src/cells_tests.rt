//! Cells of results.

use dr_cells::{CellRef, Cells};
use dr_levels::ValueRef;
use std::alloc::Global;
use std::test::Fail;

/// A cell's text.
fn cell_text(alloc: Global, cell: CellRef<'_>) -> Result<String, Fail> {
    match cell {
        CellRef::Null => Ok(String::from_str(alloc, "NULL")?),
        CellRef::Bool(truth) => Ok(format!(in alloc; "{truth}")?),
        CellRef::Int(number) => Ok(format!(in alloc; "{number}")?),
        CellRef::Text(text) => Ok(String::from_str(alloc, text)?),
        CellRef::Count(count) => Ok(format!(in alloc; "#{count}")?),
    }
}

/// The texts of cells, with a space behind each.
fn cells_text(alloc: Global, cells: &Cells) -> Result<String, Fail> {
    let mut out = String::new(alloc);
    for number in 0..cells.len() {
        out.push_str(cell_text(alloc, cells.get(number))?.as_str())?;
        out.push_str(" ")?;
    }
    Ok(out)
}

/// Puts a value into the place of a cell.
fn put(cells: &mut Cells, number: usize, value: Option<ValueRef<'_>>) -> Result<(), Fail> {
    if number >= cells.len() {
        return Err("no cell".into());
    }
    cells.set(number, value)?;
    Ok(())
}

/// Puts a count into the place of a cell.
fn put_count(cells: &mut Cells, number: usize, count: u64) -> Result<(), Fail> {
    if number >= cells.len() {
        return Err("no cell".into());
    }
    cells.set_count(number, count);
    Ok(())
}

/// A cell of each kind.
fn one_of_each(alloc: Global) -> Result<Cells, Fail> {
    let mut cells = Cells::new(alloc);
    cells.push(None)?;
    cells.push(Some(ValueRef::Bool(true)))?;
    cells.push(Some(ValueRef::Int(-7)))?;
    cells.push(Some(ValueRef::Text("us")))?;
    cells.push_whole(Some(i128::MIN))?;
    cells.push_whole(None)?;
    cells.push_count(u64::MAX)?;
    Ok(cells)
}

const EACH: &str =
    "NULL true -7 us -170141183460469231731687303715884105728 NULL #18446744073709551615 ";

/// No command puts a cell in the place of another.
#[test]
fn cells_are_appended_and_replaced(rt: HostRuntime) -> Result<(), Fail> {
    let alloc = rt.alloc();
    let mut cells = one_of_each(alloc)?;
    assert_eq!(rt; cells_text(alloc, &cells)?.as_str(), EACH);
    put(&mut cells, 0, Some(ValueRef::Text("gb")))?;
    put(&mut cells, 1, None)?;
    put(&mut cells, 2, Some(ValueRef::Bool(false)))?;
    put(&mut cells, 3, Some(ValueRef::Int(5)))?;
    put_count(&mut cells, 4, 2)?;
    cells.truncate(5);
    cells.append(&one_of_each(alloc)?)?;
    let mut expected = String::from_str(alloc, "gb NULL false 5 #2 ")?;
    expected.push_str(EACH)?;
    assert_eq!(rt; cells_text(alloc, &cells)?.as_str(), expected.as_str());
    cells.truncate(0);
    assert!(rt; cells.is_empty());
    Ok(())
}
