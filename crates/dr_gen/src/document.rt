//! The texts that go with made records.

ghost use Rattle.std.specs.Prelude.{◌≡◌};
ghost use Rattle.dr_gen.specs.Document as meant;

/// The schema of made records.
pub fn document_text() -> &'static str
    ensures { result.now ≡ meant.document_text }
{
    "message Document { required int64 DocId; \
     optional group Links { repeated int64 Backward; repeated int64 Forward; } \
     repeated group Name { \
     repeated group Language { required string Code; optional string Country; } \
     optional string Url; } }"
}

/// The query of a trial.
pub fn trial_query() -> &'static str
    ensures { result.now ≡ meant.trial_query }
{
    "SELECT COUNT(*) AS records, COUNT(Name.Language.Code) AS codes, COUNT(Name.Url) AS urls, \
     SUM(Links.Forward) AS forward, MAX(DocId) AS last FROM Document"
}
