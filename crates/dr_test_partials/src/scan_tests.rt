//! Scans of a file over a link that fails.

use crate::worked::{loaded, plan_of};
use dr_case_lines::DOCUMENT;
use dr_file::FileFault;
use dr_group::Partial;
use dr_nested::parse_schema;
use dr_outside::{MemLink, Shelf};
use dr_plan::Plan;
use dr_print::result_text;
use dr_scan::scan;
use dr_table::Steps;
use std::alloc::Global;
use std::test::Fail;

/// A query of which each record gives a line.
const QUERY: &str = "SELECT DocId, COUNT(Links.Backward) WITHIN RECORD AS n FROM Document";

/// What it prints of the first worked record.
const FIRST: &str = "{\"DocId\":10,\"n\":0}\n";

/// What a partial prints as that of all records.
fn printed(alloc: Global, plan: &Plan, partial: Partial) -> Result<String, Fail> {
    let rows = partial.finish(alloc, plan)?;
    Ok(result_text(alloc, &rows)?)
}

/// What a scan of the file at a path prints where this call of the link fails, or why it gives nothing; and how often
/// the link was asked.
fn file_scanned(
    alloc: Global,
    shelf: &Shelf,
    path: &str,
    query: &str,
    fails: u64,
) -> Result<(String, u64), Fail> {
    let schema = parse_schema(alloc, DOCUMENT.as_bytes()).or(Err("schema"))?;
    let plan = plan_of(alloc, &schema, query)?;
    let mut link = MemLink::new(alloc, shelf, [fails].to_vec(alloc)?);
    let mut steps = Steps::new();
    let scanned = scan(alloc, &plan, &mut link, path, &schema, &mut steps);
    let text = match scanned {
        Ok(partial) => printed(alloc, &plan, partial)?,
        Err(FileFault::Why(cause)) => format!(in alloc; "{cause:?}")?,
        Err(FileFault::NoMemory) => return Err("memory".into()),
    };
    Ok((text, link.asked().len() as u64))
}

/// No command shows how often a link is asked: not again once it failed. What is printed then is in the cases.
#[test]
fn a_link_that_failed_is_not_asked_again(rt: HostRuntime) -> Result<(), Fail> {
    let alloc = rt.alloc();
    let shelf = loaded(alloc)?;
    let path = "x/t000000.parquet";
    let (text, calls) = file_scanned(alloc, &shelf, path, QUERY, 0)?;
    assert_eq!(rt; text.as_str(), FIRST);
    for fails in 1..=calls {
        let failed = file_scanned(alloc, &shelf, path, QUERY, fails)?;
        assert_eq!(rt;
            failed.0.as_str(),
            "ReadFailed { before: 0, after: 1 }",
            "{fails}"
        );
        assert_eq!(rt; failed.1, fails);
    }
    Ok(())
}
