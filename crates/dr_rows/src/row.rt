//! One row.

use crate::instance_ref::InstanceRef;
use dr_levels::ValueRef;

/// A row, lent: the values of leaves in it, NULL where there is none, and the instance at the end of its chain, none
/// where that is absent.
#[derive(Clone, Copy)]
pub struct Row<'t, 'n> {
    pub values: &'t [Option<ValueRef<'n>>],
    pub end: Option<InstanceRef<'n>>,
}
