//! Cells that are let go.

ghost use Rattle.std.specs.Prelude.{◌≡◌, []};
ghost use Rattle.dr_cells.specs.Views.{cells_view};

use crate::cells::Cells;

impl Cells {
    /// Has no cells any more, and no texts: their memory is used for those that come.
    #[inline(always)]
    pub fn clear(&mut self)
        ensures cells { cells_view self.new ≡ [] }
        ensures texts { (self.new).bytes.items ≡ [] }
    {
        self.cells.clear();
        self.bytes.clear();
    }
}
