use dr_table::LeftTablet;

/// What comes of a query over a table: what it prints, or the tablets that are left.
#[derive(PartialEq, Eq, Drop)]
pub enum Queried {
    /// The result's rows as compact JSON, one to a line.
    Text(String),
    /// So the rows of the tablets that aren't left, where these are the share that was asked for; and those that are
    /// left, as below.
    Most(String, Vec<LeftTablet>),
    /// The tablets of which no copy gives records, in their order; never none.
    Left(Vec<LeftTablet>),
}
