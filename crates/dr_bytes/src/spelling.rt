//! Variable-length numbers as they are written.

ghost use Rattle.std.specs.Prelude.{◌≡◌, ◌≤◌};
ghost use Rattle.dr_formats.specs.Varint.{varint_bytes};

/// The greatest length of a variable-length number below 2^64, in bytes.
pub const LONGEST_VARINT: usize = 10;

/// The shortest spelling of a number (unsigned LEB128).
#[derive(Clone, Copy)]
pub struct Varint {
    bytes: [u8; LONGEST_VARINT],
    length: usize,
    ghost within: { length ≤ 10 },
}

impl Varint {
    ghost use Rattle.dr_bytes.specs.Spelling.{spelled};

    /// The spelling of a number.
    pub fn new(number: u64) -> Varint
        ensures { spelled result ≡ varint_bytes number }
    {
        let mut bytes = [0; LONGEST_VARINT];
        let mut length = 0;
        let mut rest = number;
        'digits: while rest >= 128 {
            bytes[length] = (128 + rest % 128) as u8;
            length += 1;
            rest /= 128;
        }
        bytes[length] = rest as u8;
        Varint {
            bytes,
            length: length + 1,
        }
    }

    /// Its bytes.
    pub fn as_slice(&self) -> &[u8]
        ensures { result.now ≡ spelled self.now }
    {
        &self.bytes[..self.length]
    }
}
