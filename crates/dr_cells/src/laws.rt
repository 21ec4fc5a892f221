// Laws of results and their shapes.

ghost use Rattle.dr_cells.specs.Results.{ReadsBack, ReadsFitting};
ghost use Rattle.dr_cells.specs.Shapes.{TreeObjectsFit, GroupRowsFit};

/// From the cells of objects of a shape, whatever follows, exactly these objects are read; and what is read fits the
/// shape.
pub fn objects_are_read_back()
    ensures back { ReadsBack }
    ensures fitting { ReadsFitting }
{}

/// The result objects of a plan fit its shape: those that the tree of a record query makes, and the rows of groups.
pub fn result_objects_fit()
    ensures objects { TreeObjectsFit }
    ensures rows { GroupRowsFit }
{}
