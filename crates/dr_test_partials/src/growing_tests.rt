//! Trees that grow of the partials of five tablets, in every order in which they can come.

ghost use Rattle.std.specs.Prelude.{◌≡◌, ◌≤◌, IfOk};
ghost use Rattle.std.specs.List.{range_with_len};
ghost use Rattle.dr_nested.specs.SchemaView.{schema_view};
ghost use Rattle.dr_partials.specs.Trees.{tablets_of};
ghost use Rattle.dr_plan.specs.Planned.{IsOfSchema};
ghost use Rattle.dr_tree.specs.Grows.{Growth, Grows};
ghost use Rattle.dr_tree.specs.Views.{tree_view};

use crate::meant::{meant_text, records_of};
use crate::worked::{load_lines, partial_at, plan_of, text_of};
use dr_case_lines::{DOCUMENT, record_lines};
use dr_nested::{Schema, parse_schema};
use dr_outside::{Link, Shelf};
use dr_plan::Plan;
use dr_print::result_text;
use dr_tree::{Growing, Tree, of_fan};
use std::alloc::Global;
use std::test::Fail;
use std::thread::Threads;

/// A query whose partials are groups, and one whose partials are lines.
const GROUPS_AND_LINES: &str = "\
SELECT Name.Language.Country, COUNT(*) AS n, SUM(DocId) AS s, MAX(Name.Url) AS u FROM Document GROUP BY Name.Language.Country
SELECT DocId, Name.Url FROM Document";

/// Whether each of five tablets is among these.
fn has_five(order: &[u32]) -> bool {
    for tablet in 0..5u32 {
        if !order.contains(&tablet) {
            return false;
        }
    }
    true
}

/// The five digits of a number to the base of five.
fn digits_of(number: u32) -> [u32; 5] {
    [
        number / 625 % 5,
        number / 125 % 5,
        number / 25 % 5,
        number / 5 % 5,
        number % 5,
    ]
}

/// What a tree grows of a plan's partials of five files, which come in this order.
fn grown<L: Link>(
    alloc: Global,
    link: &mut L,
    schema: &Schema,
    plan: &Plan,
    tree: &Tree,
    order: &[u32],
) -> Result<Growing, Fail>
    requires planned { IsOfSchema (schema_view schema.now) plan.now }
    requires tablets { tablets_of (tree_view tree.now) ≡ range_with_len 0 5 }
    ensures { IfOk result (λ g. (w : Growth) × Grows w g) }
{
    let mut growing = Growing::new(alloc, tree, plan)?;
    let mut has_piece = vec![in alloc; false, false, false, false, false]?;
    'order: for tablet in order {
        let tablet = *tablet;
        let place = tablet as usize;
        if place >= has_piece.len() {
            return Err("no tablet".into());
        }
        let is_there = has_piece[place];
        if is_there {
            return Err("twice".into());
        }
        let path = format!(in alloc; "x/t00000{tablet}.parquet")?;
        let partial = partial_at(alloc, link, schema, plan, path.as_str())?;
        growing.add(alloc, tablet, partial)?;
        has_piece[place] = true;
    }
    Ok(growing)
}

/// What a plan prints of it.
fn grown_text<R: Threads + Sync, L: Link>(
    rt: &R,
    alloc: Global,
    link: &mut L,
    schema: &Schema,
    plan: &Plan,
    tree: &Tree,
    order: &[u32],
) -> Result<String, Fail>
    requires planned { IsOfSchema (schema_view schema.now) plan.now }
    requires tablets { tablets_of (tree_view tree.now) ≡ range_with_len 0 5 }
{
    let growing = grown(alloc, link, schema, plan, tree, order)?;
    let partial = growing.finish(rt, alloc)?;
    let rows = partial.finish(alloc, plan)?;
    Ok(result_text(alloc, &rows)?)
}

/// In how many orders a tree of a fan grows, and that what it prints is this in each.
fn orders_of<R: Threads + Sync, L: Link>(
    rt: &R,
    alloc: Global,
    link: &mut L,
    schema: &Schema,
    plan: &Plan,
    fan: u32,
    expected: &str,
) -> Result<u32, Fail>
    requires planned { IsOfSchema (schema_view schema.now) plan.now }
    requires fan { 1 ≤ fan }
{
    let tree = of_fan(alloc, 5, fan)?;
    let mut orders = 0u32;
    'numbers: for number in 0..3_125u32 {
        let order = digits_of(number);
        if has_five(&order) {
            let text = grown_text(rt, alloc, link, schema, plan, &tree, &order)?;
            if text.as_str() != expected {
                return Err(format!(in alloc; "{fan} {order:?} {text}")?.into());
            }
            orders = orders.saturating_add(1);
        }
    }
    Ok(orders)
}

/// A loop over the orders in which workers can bring five tablets, which no case chooses.
#[test]
fn a_tree_grows_alike_in_every_order(rt: HostRuntime) -> Result<(), Fail> {
    let alloc = rt.alloc();
    let schema = parse_schema(alloc, DOCUMENT.as_bytes()).or(Err("schema"))?;
    let lines = record_lines(alloc, 15)?;
    let records = records_of(alloc, &schema, &lines)?;
    let text = text_of(alloc, &lines)?;
    let mut shelf = Shelf::new(alloc, Vec::new(alloc));
    load_lines(alloc, &mut shelf, text.as_str(), "x", 3, "t.table")?;
    for query in GROUPS_AND_LINES.lines() {
        let plan = plan_of(alloc, &schema, query)?;
        let expected = meant_text(alloc, &schema, &plan, &records)?;
        let binary = orders_of(&rt, alloc, &mut shelf, &schema, &plan, 2, expected.as_str())?;
        let ternary = orders_of(&rt, alloc, &mut shelf, &schema, &plan, 3, expected.as_str())?;
        assert_eq!(rt; (binary, ternary), (120, 120));
    }
    Ok(())
}
