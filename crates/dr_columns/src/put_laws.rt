// Laws of what is put of columns side by side.

ghost use Rattle.dr_columns.specs.RowPuts.{PutsOfSource};
ghost use Rattle.dr_columns.specs.ChunksTaken.{ChunksArePut};

/// What is put of the rows of a source is what is put of the rows of its leaf's chain.
pub fn puts_of_source()
    ensures { PutsOfSource }
{}

/// What is put of a chunk's columns, leaf by leaf, makes of the partial of the records before it that of both.
pub fn chunks_are_put()
    ensures { ChunksArePut }
{}
