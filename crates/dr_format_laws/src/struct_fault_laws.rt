// Laws of the faults of structs in the Thrift compact protocol.

ghost use Rattle.dr_format_laws.specs.StructFaultLaws.{BytesBeforeFaultGoOn, BytesGoOnOneDeeper};
ghost use Rattle.dr_format_laws.specs.StructFaultLaws.{DepthAloneIsRefused, MalformedEndsStructs, MalformedStays, TooDeepEndsStructs};

/// The bytes before a fault begin a struct, which may nest one deeper than is read.
pub fn bytes_before_struct_fault_go_on()
    ensures begun { BytesBeforeFaultGoOn }
    ensures deeper { BytesGoOnOneDeeper }
{}

/// With a malformed byte no struct goes on, however deep it nests, and no greater limit of nesting mends it; the bytes
/// before a value that is too deep begin none within the limit.
pub fn struct_fault_ends_structs()
    ensures malformed { MalformedEndsStructs }
    ensures stays { MalformedStays }
    ensures too_deep { TooDeepEndsStructs }
{}

/// What spells a struct, however deep it nests, is read as it, or refused for its depth alone.
pub fn struct_is_refused_for_depth_alone()
    ensures { DepthAloneIsRefused }
{}
