// Laws of the lines that tell a query's rewriting.

ghost use Rattle.dr_query_laws.specs.ReadBack.{LeafLineHasNames, LeafLineIsReadBack, LeafTreeBinds};

/// The leaf line of a query that was parsed and bound is, but for the names of its items and for its table, the text of
/// a query again: its tokens spell a tree that says the leaf query, item by item, and parse_query gives that tree, or a
/// fault of a limit.
pub fn leaf_line_is_read_back()
    ensures named { LeafLineHasNames }
    ensures read { LeafLineIsReadBack }
{}

/// A tree that says the leaf query of a bound query is bound as a whole, too, unless two of its items have one name:
/// the leaf line's AS parts give them names of their own.
pub fn leaf_tree_binds_but_for_names()
    ensures { LeafTreeBinds }
{}
