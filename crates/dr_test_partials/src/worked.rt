//! The worked document, and tables of lines.

ghost use Rattle.std.specs.Prelude.{◌≡◌, true, IfOk};
ghost use Rattle.dr_nested.specs.SchemaView.{schema_view};
ghost use Rattle.dr_plan.specs.Planned.{IsOfSchema, plan_view};
ghost use Rattle.dr_plan.specs.PlanOf.{ForQuery};
ghost use Rattle.dr_partials.specs.PartialTypes.{is_partial};
ghost use Rattle.dr_partials.specs.PartialBounds.{PartialCanBeOf};
ghost use Rattle.dr_partials.specs.Rewriting.{leaf_query};
ghost use Rattle.dr_group.specs.Partials.{IsPartialOf, partial_view};
ghost use Rattle.dr_reading.specs.Truth.{most_values};

use dr_bind::read_query;
use dr_case_lines::{DOCUMENT, RECORDS};
use dr_group::Partial;
use dr_load::{Plan as LoadPlan, load};
use dr_nested::{Schema, parse_schema};
use dr_outside::{Link, MemSource, Shelf};
use dr_page::PageForm;
use dr_plan::Plan;
use dr_scan::scan;
use dr_table::Steps;
use std::alloc::Global;
use std::test::Fail;

/// Lines, one behind another.
pub fn text_of(alloc: Global, lines: &[String]) -> Result<String, Fail> {
    let mut text = String::new(alloc);
    for line in lines {
        text.push_str(line.as_str())?;
    }
    Ok(text)
}

/// Loads lines as a table of documents, so many to a tablet, with a copy in each of some directories, which have a
/// space between each two.
pub fn load_lines(
    alloc: Global,
    shelf: &mut Shelf,
    lines: &str,
    directories: &str,
    rows: u32,
    table: &str,
) -> Result<(), Fail> {
    let schema = parse_schema(alloc, DOCUMENT.as_bytes()).or(Err("schema"))?;
    let mut leaves = Vec::new(alloc);
    for directory in directories.split(' ') {
        leaves.push(String::from_str(alloc, directory)?)?;
    }
    let copies = u32::try_from(leaves.len()).or(Err("too many leaves"))?;
    if copies == 0 || copies > 64 || rows == 0 || rows > 1_000_000 {
        return Err("no plan".into());
    }
    let plan = LoadPlan {
        schema: &schema,
        leaves: &leaves,
        copies,
        rows,
        table: Some(table),
        form: PageForm::V1,
    };
    let mut source = MemSource::new(lines.as_bytes(), Vec::new(alloc));
    load(alloc, &plan, &mut source, shelf).or(Err("load"))?;
    Ok(())
}

/// The files of the worked records, one to a tablet, in the directories `x` and `y`.
pub fn loaded(alloc: Global) -> Result<Shelf, Fail> {
    let mut shelf = Shelf::new(alloc, Vec::new(alloc));
    load_lines(alloc, &mut shelf, RECORDS, "x y", 1, "t.table")?;
    Ok(shelf)
}

/// The plan of a query's text.
pub fn plan_of(alloc: Global, schema: &Schema, text: &str) -> Result<Plan, Fail>
    ensures { IfOk result (IsOfSchema (schema_view schema.now)) }
{
    let Ok(plan) = read_query(alloc, schema, text) else {
        return Err("no plan".into());
    };
    Ok(plan)
}

/// The partial of the file at a path.
pub fn partial_at<L: Link>(
    alloc: Global,
    link: &mut L,
    schema: &Schema,
    plan: &Plan,
    path: &str,
) -> Result<Partial, Fail>
    requires planned { IsOfSchema (schema_view schema.now) plan.now }
    ensures partial { ForQuery (schema_view schema.now) plan.now
        (λ q. IfOk result (λ p. is_partial (schema_view schema.now).fields (leaf_query q) (partial_view p) ≡ true)) }
    ensures bounded { IfOk result (λ p. PartialCanBeOf most_values (partial_view p)) }
    ensures of_plan { IfOk result (IsPartialOf (plan_view plan.now)) }
{
    match scan(alloc, plan, link, path, schema, &mut Steps::new()) {
        Ok(partial) => Ok(partial),
        Err(_) => Err("no partial".into()),
    }
}
