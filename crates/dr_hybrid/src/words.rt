//! Numbers of up to eight bytes, and how many bytes packed values take.

ghost use Rattle.std.specs.Prelude.{◌≡◌, ◌≤◌, ◌<◌, ◌*◌, ◌^◌, take, length, IfSome, IfNone};
ghost use Rattle.dr_formats.specs.LittleEndian.{little_endian, bytes_for};

/// The number in the first eight bytes, or in all where there are fewer, the lowest first.
#[inline(always)]
pub(crate) fn front_word(bytes: &[u8]) -> u64
    ensures { result ≡ little_endian (take 8 bytes.now) }
{
    match bytes.first_chunk::<8>() {
        Some(word) => u64::from_le_bytes(*word),
        None => short_word(bytes),
    }
}

/// The number in fewer than eight bytes.
fn short_word(bytes: &[u8]) -> u64
    requires { length bytes.now < 8 }
    ensures { result ≡ little_endian bytes.now }
{
    let mut word = 0;
    'bytes: for done in 0..bytes.len() {
        word = word * 256 + u64::from(bytes[bytes.len() - 1 - done]);
    }
    word
}

/// The number in at most four bytes.
#[inline(always)]
pub(crate) fn number_of(bytes: &[u8]) -> u32
    requires { length bytes.now ≤ 4 }
    ensures number { result ≡ little_endian bytes.now }
    ensures below { result < 2 ^ (8 * length bytes.now) }
{
    front_word(bytes) as u32
}

/// The bytes that so many values of a width take; none where there are no slices of that length.
#[inline(always)]
pub(crate) fn packed_length(count: usize, width: u32) -> Option<usize>
    requires { width ≤ 32 }
    ensures length { IfSome result (λ n. n ≡ bytes_for (count * width)) }
    ensures none { IfNone result (2 ^ 64 ≤ bytes_for (count * width)) }
{
    let width = width as usize;
    match (count / 8).checked_mul(width) {
        Some(groups) => groups.checked_add((count % 8 * width + 7) / 8),
        None => None,
    }
}
