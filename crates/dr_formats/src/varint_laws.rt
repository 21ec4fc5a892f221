//! Laws of variable-length numbers.

ghost use Rattle.dr_formats.specs.VarintLaws.{VarintIsReadExactly, WrittenVarintIsRead, WrittenVarintIsShortest, ZigzagIsUndone};

/// A number and a rest are read exactly where a front of the bytes spells the number.
pub fn varint_is_read_exactly()
    ensures { VarintIsReadExactly }
{}

/// What is written for a number is read as that number, whatever follows it, and no spelling is shorter.
pub fn written_varint_is_read()
    ensures read { WrittenVarintIsRead }
    ensures shortest { WrittenVarintIsShortest }
{}

/// A signed number is that of its zigzag.
pub fn zigzag_is_undone()
    ensures { ZigzagIsUndone }
{}
