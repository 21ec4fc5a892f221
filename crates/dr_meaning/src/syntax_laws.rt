// Laws of the syntax of queries.

ghost use Rattle.dr_meaning.specs.SyntaxLaws.{AcceptedIsSpelled, OneTree, SpelledIsAccepted, SyntaxFaultIsDeadEnd, SyntaxFaultIsNoQuery};

/// The tokens of a query text that is accepted spell its syntax tree by the productions of the grammar, and no other
/// tree.
pub fn accepted_query_text_is_spelled()
    ensures tree { AcceptedIsSpelled }
    ensures no_other { OneTree }
{}

/// A query text whose tokens spell a tree is accepted with it, or refused for a limit: of its length, its nestings, its
/// items or keys, its operators.
pub fn spelled_query_text_is_accepted()
    ensures { SpelledIsAccepted }
{}

/// A query text with a fault of syntax is spelled by no tree; and where the fault is at a token, no query's tokens
/// begin with those before it and with it.
pub fn query_syntax_fault_is_dead_end()
    ensures none { SyntaxFaultIsNoQuery }
    ensures dead_end { SyntaxFaultIsDeadEnd }
{}
