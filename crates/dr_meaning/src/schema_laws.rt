//! Laws of schema text, each a function that does nothing and whose contract is the law.

ghost use Rattle.dr_meaning.specs.SchemaFaultLaws.{NameFaultIsBroken};
ghost use Rattle.dr_meaning.specs.SchemaTextLaws.{AcceptedExactly, AcceptedIsSpelled, BeforeFaultGoesOn, CanonicalReadsBack, EmptyGroupIsDeadEnd, FloatIsDeadEnd, SyntaxIsDeadEnd};

/// Every accepted schema text is spelled by the grammar.
pub fn accepted_schema_text_is_spelled()
    ensures { AcceptedIsSpelled }
{}

/// The faults `syntax`, `float_kind` and `empty_group` stand at the first token with which no schema goes on, or
/// `syntax` at the end of a text that ends too early.
pub fn syntax_fault_is_first_dead_end()
    ensures syntax { SyntaxIsDeadEnd }
    ensures float { FloatIsDeadEnd }
    ensures empty { EmptyGroupIsDeadEnd }
{}

/// The tokens before any fault begin some schema's tokens.
pub fn tokens_before_fault_go_on()
    ensures { BeforeFaultGoesOn }
{}

/// The canonical text of a schema reads back as that schema.
pub fn canonical_schema_text_reads_back()
    ensures { CanonicalReadsBack }
{}

/// Exactly the texts are accepted as a schema that are not too long and spell a schema that keeps the rules of names
/// and the limits.
pub fn schema_texts_are_accepted_exactly()
    ensures { AcceptedExactly }
{}

/// At the fault of a name its rule is broken, none before it at that name, and none at the names before.
pub fn name_fault_is_broken()
    ensures { NameFaultIsBroken }
{}
