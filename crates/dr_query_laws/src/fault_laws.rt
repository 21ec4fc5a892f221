// Laws of the faults of query texts.

ghost use Rattle.dr_query_laws.specs.FaultLaws.{FewElementsBeforeFault, FewOperatorsBeforeFault, LimitIsNoDeadEnd, LittleNestedBeforeFault, TokensBeforeFaultGoOn};

/// The tokens before a fault of a query text, of syntax or of a limit, begin a query: it goes on with none of them for
/// sure only from the fault on.
pub fn tokens_before_query_fault_go_on()
    ensures { TokensBeforeFaultGoOn }
{}

/// No token before a fault of a query text, of syntax or of a limit, is the 513th among + - * AND OR, none opens a
/// nesting where 32 are open, and none begins the 257th item or the 257th key.
pub fn no_limit_is_passed_before_query_fault()
    ensures operators { FewOperatorsBeforeFault }
    ensures nestings { LittleNestedBeforeFault }
    ensures elements { FewElementsBeforeFault }
{}

/// The token with which a query text has too many or is too deep could stand there: the tokens before it and it begin a
/// query.
pub fn query_limit_is_no_dead_end()
    ensures { LimitIsNoDeadEnd }
{}
