//! Laws of PLAIN values and page bodies.

ghost use Rattle.dr_formats.specs.PlainLaws.{WrittenBodyIsRead, WrittenValuesAreRead};

/// What is written for values of a kind is read as these values, whatever follows it.
pub fn written_values_are_read()
    ensures { WrittenValuesAreRead }
{}

/// The body that is written for triplets is read as these triplets, whatever follows it.
pub fn written_body_is_read()
    ensures { WrittenBodyIsRead }
{}
