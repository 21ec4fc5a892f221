//! Laws of puts in another order.

ghost use Rattle.dr_partials.specs.AnyOrder.{PutsInAnyOrder};
ghost use Rattle.dr_partials.specs.Together.{PutsOfBoth};
ghost use Rattle.dr_partials.specs.GroupPuts.{GroupsBecome, SourceGroupsFirst};
ghost use Rattle.dr_partials.specs.ChunkPuts.{ChunksAreTaken};
ghost use Rattle.dr_partials.specs.SourcesPut.{SourcesPutAll};
ghost use Rattle.dr_partials.specs.Readings.{GroupsArePutFirst, PartedReadings, TermsAreReadings};

/// Puts in any order make the same of a partial.
pub fn puts_in_any_order()
    ensures { PutsInAnyOrder }
{}

/// What is put of records is what is put of the first of them, then of the rest.
pub fn puts_of_both()
    ensures { PutsOfBoth }
{}

/// What a query's aggregates put is what their readings put.
pub fn terms_are_readings()
    ensures { TermsAreReadings }
{}

/// Some of the readings can come first.
pub fn parted_readings()
    ensures { PartedReadings }
{}

/// Groups of rows can be put before the values of the rows.
pub fn groups_are_put_first()
    ensures { GroupsArePutFirst }
{}

/// Readings that are grouped by sources, each in one, put the same.
pub fn sources_put_all()
    ensures { SourcesPutAll }
{}

/// Where all records are kept, chunks of them can be put one after another, source by source.
pub fn chunks_are_taken()
    ensures { ChunksAreTaken }
{}

/// What is put goes into the query's groups, one after another.
pub fn groups_become()
    ensures { GroupsBecome }
{}

/// The groups of a source's rows can be put before all that it puts.
pub fn source_groups_first()
    ensures { SourceGroupsFirst }
{}
