//! Queries of records that look random: wherever the records are cut in two, the text that is printed is what the plan
//! means on all of them.

ghost use Rattle.dr_nested.specs.SchemaView.{schema_view};
ghost use Rattle.dr_plan.specs.Planned.{IsOfSchema};

use crate::meant::{meant_text, records_of};
use crate::worked::{load_lines, partial_at, plan_of, text_of};
use dr_case_lines::{DOCUMENT, QUERIES, record_lines};
use dr_nested::{Schema, parse_schema};
use dr_outside::{Link, Shelf};
use dr_plan::Plan;
use dr_print::result_text;
use dr_tree::{gather, of_fan};
use std::alloc::Global;
use std::test::Fail;
use std::thread::Threads;

/// How many records there are.
const COUNT: usize = 120;

/// The records, cut at each place into two files: those before it, and those behind it.
fn halves(alloc: Global, lines: &[String]) -> Result<Shelf, Fail> {
    let mut shelf = Shelf::new(alloc, Vec::new(alloc));
    for cut in 0..=COUNT {
        let (front, behind) = lines.split_at_checked(cut).ok_or("no cut")?;
        for (side, lines) in [("front", front), ("behind", behind)] {
            let text = text_of(alloc, lines)?;
            let directory = format!(in alloc; "{side}{cut}")?;
            load_lines(
                alloc,
                &mut shelf,
                text.as_str(),
                directory.as_str(),
                1000,
                "t.table",
            )?;
        }
    }
    Ok(shelf)
}

/// What a plan prints of two files: a tree of two leaf servers gathers the partials of both.
fn gathered_text<R: Threads + Sync, L: Link>(
    rt: &R,
    alloc: Global,
    link: &mut L,
    schema: &Schema,
    plan: &Plan,
    cut: usize,
) -> Result<String, Fail>
    requires planned { IsOfSchema (schema_view schema.now) plan.now }
{
    let front = format!(in alloc; "front{cut}/t000000.parquet")?;
    let behind = format!(in alloc; "behind{cut}/t000000.parquet")?;
    let first = partial_at(alloc, link, schema, plan, front.as_str())?;
    let second = partial_at(alloc, link, schema, plan, behind.as_str())?;
    let partials = vec![in alloc; first, second]?;
    let tree = of_fan(alloc, 2, 2)?;
    let partial = gather(rt, alloc, &tree, partials)?;
    let rows = partial.finish(alloc, plan)?;
    Ok(result_text(alloc, &rows)?)
}

/// A loop over 121 cuts, against what the evaluator of records gives, which no command runs.
#[test]
fn the_partials_of_two_tablets_give_the_answer(rt: HostRuntime) -> Result<(), Fail> {
    let alloc = rt.alloc();
    let schema = parse_schema(alloc, DOCUMENT.as_bytes()).or(Err("schema"))?;
    let lines = record_lines(alloc, COUNT)?;
    let records = records_of(alloc, &schema, &lines)?;
    let mut shelf = halves(alloc, &lines)?;
    for query in QUERIES.lines() {
        let plan = plan_of(alloc, &schema, query)?;
        let expected = meant_text(alloc, &schema, &plan, &records)?;
        for cut in 0..=COUNT {
            let text = gathered_text(&rt, alloc, &mut shelf, &schema, &plan, cut)?;
            assert_eq!(rt; text.as_str(), expected.as_str(), "{cut} {query}");
        }
    }
    Ok(())
}
