//! Names of a result's fields.

ghost use Rattle.std.specs.Prelude.{◌≡◌, IfOk, string_bytes};
ghost use Rattle.dr_sub_meaning.specs.ResultRecords as meant;

use dr_memory::NoMemory;
use std::alloc::Global;

/// What stands in a name of a result for a dot, which no field's name has.
const DOT: u8 = b'.';

const IN_PLACE_OF_DOT: u8 = b'_';

fn without_dot(byte: u8) -> u8
    ensures { result ≡ meant.without_dot byte }
{
    if byte == DOT { IN_PLACE_OF_DOT } else { byte }
}

/// A name with `_` in the place of each dot.
///
/// Errors: want of memory alone.
pub(crate) fn field_name(alloc: Global, name: &str) -> Result<String, NoMemory>
    ensures { IfOk result (λ n. string_bytes n ≡ meant.field_name name.now) }
{
    let mut bytes = Vec::with_capacity(alloc, name.len())?;
    'bytes: for byte in name.as_bytes() {
        bytes.push(without_dot(*byte))?;
    }
    match String::from_utf8(bytes) {
        Ok(name) => Ok(name),
        Err(_) => Err(NoMemory),
    }
}
