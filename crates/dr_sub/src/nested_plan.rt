//! Plans of queries over the results of others.

use dr_ordered::Order;
use dr_plan::Plan;

/// The plans of record queries, the innermost first, which is over the table's records; and that of the outermost
/// query, over what the last of them gives. Its result goes by an order and is cut, where that is asked.
#[derive(Drop)]
pub struct NestedPlan {
    pub inner: Vec<Plan>,
    pub outer: Plan,
    pub order: Option<Order>,
    pub limit: Option<u64>,
}
