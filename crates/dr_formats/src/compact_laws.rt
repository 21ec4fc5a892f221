//! Laws of structs in the Thrift compact protocol.

ghost use Rattle.dr_formats.specs.CompactLaws.{FaultIsFirst, FrontSpellsOneStruct, StructIsReadExactly, WrittenStructIsRead, WrittenStructIsSpelled};

/// A struct and a rest are read exactly where a front of the bytes spells the struct by the grammar.
pub fn struct_is_read_exactly()
    ensures { StructIsReadExactly }
{}

/// What is written for a struct spells it, and is read as that struct, whatever follows it.
pub fn written_struct_is_read()
    ensures spelled { WrittenStructIsSpelled }
    ensures read { WrittenStructIsRead }
{}

/// A front of bytes spells at most one struct, at one length.
pub fn front_spells_one_struct()
    ensures { FrontSpellsOneStruct }
{}

/// A fault stands at the first byte that is at fault: the bytes before it are at fault only in that they end there, and
/// with it no struct goes on.
pub fn fault_is_first()
    ensures { FaultIsFirst }
{}
