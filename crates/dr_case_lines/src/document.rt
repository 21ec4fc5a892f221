//! The worked schema and its records.

/// The worked schema.
pub const DOCUMENT: &str =
    "message Document { required int64 DocId; optional group Links { repeated int64 Backward; repeated int64 Forward; } repeated group Name { repeated group Language { required string Code; optional string Country; } optional string Url; } }";

/// The lines of the worked records.
pub const RECORDS: &str =
    "{\"DocId\":10,\"Links\":{\"Forward\":[20,40,60]},\"Name\":[{\"Language\":[{\"Code\":\"en-us\",\"Country\":\"us\"},{\"Code\":\"en\"}],\"Url\":\"http://A\"},{\"Url\":\"http://B\"},{\"Language\":[{\"Code\":\"en-gb\",\"Country\":\"gb\"}]}]}\n{\"DocId\":20,\"Links\":{\"Backward\":[10,30],\"Forward\":[80]},\"Name\":[{\"Url\":\"http://C\"}]}\n";
