//! The columns of one tablet.

use dr_levels::Column;

/// The columns of the records of one tablet, how many records there are, and whether the input ended with them.
#[derive(Drop)]
pub(crate) struct Filled {
    pub(crate) columns: Vec<Column>,
    pub(crate) records: u32,
    pub(crate) ended: bool,
}
