// Laws of serving.

ghost use Rattle.dr_reading.specs.ServingLaws.{TrueOfTabletStands, FinishedMeansQuery, KeptPiecesAreTrue, BoundIsServable};

/// Where all links tell what they hold, and each leaf of a tablet holds a file of its records, or none of any, a piece
/// that is true of the tablet stands for the leaf query on its records.
pub fn true_piece_stands_for_records()
    ensures { TrueOfTabletStands }
{}

/// Then what serving is finished with is, finished, what the query means on the records of all tablets.
pub fn finished_serving_means_query()
    ensures { FinishedMeansQuery }
{}

/// Where the kept pieces of a history are true and each tablet has an answer, the piece that is kept of each is true of
/// it.
pub fn kept_pieces_are_true()
    ensures { KeptPiecesAreTrue }
{}

/// A query that is bound can be served.
pub fn bound_query_is_servable()
    ensures { BoundIsServable }
{}
