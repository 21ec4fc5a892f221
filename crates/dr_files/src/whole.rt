// Files whose size isn't told, which are read whole.
ghost use Rattle.std.specs.Prelude.{◌≡◌, ◌≤◌, ◌+◌, length, Some, IfOk, IfSome, OnOk, OnErr};
ghost use Rattle.dr_outside.specs.Link.{IsPartAt, FallsShort};

use std::alloc::Global;
use std::fs::OpenFile;
use std::io;
use std::io::{ErrorKind, Read};

/// The most bytes that are read of a file whose size isn't told: 256 MiB.
const LONGEST_WHOLE: u64 = 268_435_456;

/// Whether a file tells its size. A pipe and a device tell none, and files that the system makes up, as those of
/// `/proc`, tell 0.
pub fn tells_size<F: OpenFile>(file: &F) -> io::Result<bool> {
    let metadata = file.metadata()?;
    Ok(metadata.is_file() && metadata.len() > 0)
}

/// All bytes that are left to read. More than 256 MiB is an error.
pub fn read_whole<F: Read + Drop>(alloc: Global, file: F) -> io::Result<Vec<u8>>
    ensures all { IfOk result (λ v. IfSome (F.remaining file) (λ left. v.items ≡ left)) }
    ensures few { IfOk result (λ v. length v.items ≤ 268435456) }
{
    let mut bytes = Vec::new(alloc);
    file.take(LONGEST_WHOLE + 1).read_to_end(&mut bytes)?;
    if bytes.len() as u64 > LONGEST_WHOLE {
        return Err(io::Error::from(ErrorKind::FileTooLarge));
    }
    Ok(bytes)
}

/// Fills `buf` with the bytes from `at` on. Where they end before, that is an error.
pub fn copy_range(bytes: &[u8], at: u64, buf: &mut [u8]) -> io::Result<()>
    ensures part { OnOk result (IsPartAt (Some bytes.now) at buf.new) }
    ensures short { OnErr result (FallsShort (Some bytes.now) (at + length buf.old)) }
{
    let start = at as usize;
    if start > bytes.len() || bytes.len() - start < buf.len() {
        return Err(io::Error::from(ErrorKind::UnexpectedEof));
    }
    buf.copy_from_slice(&bytes[start..][..buf.len()]);
    Ok(())
}
