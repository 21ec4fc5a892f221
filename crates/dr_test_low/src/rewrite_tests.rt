//! The plans of a tree's servers.

use dr_bind::bind;
use dr_nested::parse_schema;
use dr_rewrite::{inner_of, root_of};
use dr_sql::parse;
use std::test::Fail;

const SCHEMA: &[u8] = b"message T { required int64 a; optional string b; }";

const QUERIES: [&str; 2] = [
    "SELECT b, COUNT(a) AS n, MAX(a) AS m FROM T WHERE a <= 20 GROUP BY b",
    "SELECT a, COUNT(b) WITHIN RECORD AS c FROM T WHERE a <= 20",
];

/// No command makes the plans of inner and root servers: that there are some. The queries that they are stand among the
/// vectors.
#[test]
fn each_server_has_a_plan(rt: HostRuntime) -> Result<(), Fail> {
    let alloc = rt.alloc();
    let schema = parse_schema(alloc, SCHEMA).or(Err("schema"))?;
    for text in QUERIES {
        let query = parse(alloc, text).or(Err("query"))?;
        let plan = bind(alloc, &schema, &query).or(Err("plan"))?;
        inner_of(alloc, &plan)?;
        root_of(alloc, &plan)?;
    }
    Ok(())
}
