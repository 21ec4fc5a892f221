//! Where to load.

ghost use Rattle.std.specs.Prelude.{◌<◌, ◌≤◌, length};

use dr_nested::Schema;
use dr_page::PageForm;

/// Where to load: the schema, the directories of the leaves, how many copies of each tablet, how many records to a
/// tablet, the path of the table file, if it is to be put, and the form of the data pages.
#[derive(Clone, Copy)]
pub struct Plan<'s, 'l, 't> {
    pub schema: &'s Schema,
    pub leaves: &'l [String],
    pub copies: u32,
    pub rows: u32,
    pub table: Option<&'t str>,
    pub form: PageForm,
    pub ghost few_leaves: { length leaves.now ≤ 64 },
    pub ghost has_copy: { 0 < copies },
    pub ghost few_copies: { copies ≤ length leaves.now },
    pub ghost has_rows: { 0 < rows },
    pub ghost few_rows: { rows ≤ 1000000 },
}
