//! The types of the compact protocol and their numbers.

ghost use Rattle.std.specs.Prelude.{◌≡◌, option_map};
ghost use Rattle.dr_formats.specs.Compact.{type_of, type_number};
ghost use Rattle.dr_compact.specs.Types.{type_view};

/// The type of a value.
#[derive(Clone, Copy, PartialEq, Eq)]
pub(crate) enum ThriftType {
    True = 1,
    False = 2,
    Byte = 3,
    I16 = 4,
    I32 = 5,
    I64 = 6,
    Double = 7,
    Binary = 8,
    List = 9,
    Set = 10,
    Map = 11,
    Struct = 12,
}

impl ThriftType {
    /// The type of a number, if it has one.
    pub(crate) fn from_number(number: u8) -> Option<ThriftType>
        ensures { option_map type_view result ≡ type_of number }
    {
        match number {
            1 => Some(ThriftType::True),
            2 => Some(ThriftType::False),
            3 => Some(ThriftType::Byte),
            4 => Some(ThriftType::I16),
            5 => Some(ThriftType::I32),
            6 => Some(ThriftType::I64),
            7 => Some(ThriftType::Double),
            8 => Some(ThriftType::Binary),
            9 => Some(ThriftType::List),
            10 => Some(ThriftType::Set),
            11 => Some(ThriftType::Map),
            12 => Some(ThriftType::Struct),
            _ => None,
        }
    }

    /// The number of the type.
    pub(crate) fn number(self) -> u8
        ensures { result ≡ type_number (type_view self) }
    {
        self as u8
    }
}
