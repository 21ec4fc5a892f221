// Laws of queries over the results of others.

ghost use Rattle.dr_sub_meaning.specs.NestedLaws.{RecordByRecord, ResultsAreRecords, NestedGatheredStands, NestedGatheredMeans, NestedRootMeans, NestedMergedStands, NestedLeafHasPartials, NestedFinishedIsMeaning, NestedMeaningOfProjection, NestedPartialOfProjection};
ghost use Rattle.dr_sub_meaning.specs.ResultSchemaLaws.{ResultIsSchema, ParsedHaveItems, InnerResultsAreSchemas};
ghost use Rattle.dr_sub_meaning.specs.BoundLaws.{BoundIsSound, TabletsMeanBound};
ghost use Rattle.dr_sub_meaning.specs.NestedGrammar.{NestedAcceptedIsSpelled, NestedOneTree, NestedSpelledIsAccepted, NestedFaultIsNoQuery, NestedFaultIsDeadEnd};
ghost use Rattle.dr_sub_meaning.specs.PlainLaws.{PlainTextsStay, PlainQueriesStay, PlainFaultsStay, PlainMeaningStays, PlainPartialsStay, PlainFinishedStays, PlainLeavesStay, PlainRewritingStays};

/// Record queries, one over another, go record by record: what they give on records and then others is what they give
/// on each, one behind the other.
pub fn record_queries_go_record_by_record()
    ensures { RecordByRecord }
{}

/// What a record query gives on records of its schema are records of the result's schema.
pub fn results_are_records()
    ensures { ResultsAreRecords }
{}

/// So the leaf queries of tablets, each over what the inner queries give on the tablet, come to the whole, whatever the
/// tree.
pub fn tablets_come_to_the_whole()
    ensures stands { NestedGatheredStands }
    ensures means { NestedGatheredMeans }
    ensures root { NestedRootMeans }
{}

/// Partials of nested queries are merged, have the leaf query's and are finished as those of plain ones.
pub fn nested_partials_are_partials()
    ensures merged { NestedMergedStands }
    ensures leaf { NestedLeafHasPartials }
    ensures finished { NestedFinishedIsMeaning }
{}

/// Leaves that are enough for the innermost query are enough.
pub fn leaves_of_innermost_are_enough()
    ensures means { NestedMeaningOfProjection }
    ensures partial { NestedPartialOfProjection }
{}

/// The result schema of a record query is a schema; so are those of all inner queries of a text that is bound.
pub fn result_schemas_are_schemas()
    ensures schema { ResultIsSchema }
    ensures parsed { ParsedHaveItems }
    ensures inner { InnerResultsAreSchemas }
{}

/// What is bound over the results of others is sound; so, whatever the tree, what it gathers of the tablets' pieces is,
/// finished, what the query means on the records of all tablets.
pub fn bound_queries_mean_the_whole()
    ensures sound { BoundIsSound }
    ensures tablets { TabletsMeanBound }
{}

/// The tokens of an accepted text spell its syntax tree, and no other. A text whose tokens spell a tree is accepted, or
/// refused for a limit.
pub fn nested_texts_are_spelled()
    ensures spelled { NestedAcceptedIsSpelled }
    ensures one { NestedOneTree }
    ensures accepted { NestedSpelledIsAccepted }
{}

/// A text with a fault of syntax is spelled by no tree, and no query's tokens begin with those up to the fault and with
/// it.
pub fn nested_syntax_faults_are_dead_ends()
    ensures none { NestedFaultIsNoQuery }
    ensures end { NestedFaultIsDeadEnd }
{}

/// Texts and queries without a query in FROM, without order and limit, are what they are without these.
pub fn plain_queries_stay()
    ensures texts { PlainTextsStay }
    ensures queries { PlainQueriesStay }
    ensures faults { PlainFaultsStay }
    ensures means { PlainMeaningStays }
    ensures partials { PlainPartialsStay }
    ensures finished { PlainFinishedStays }
    ensures leaves { PlainLeavesStay }
    ensures rewriting { PlainRewritingStays }
{}
