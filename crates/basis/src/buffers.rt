// Lent buffers: bytes written at a place or at the start, the rest as it was; and bytes read from a place.
ghost use Rattle.std.specs.Prelude.{◌≡◌, ◌+◌, ◌<◌, ◌≤◌, length, take, replicate, slice_index};
ghost use Rattle.basis.specs.Lists.{overlay, copy_of, pair_at};

/// Writes `bytes` from place `at` on, whatever stood there; all else stays.
// A place beside the buffer: `copy_of` tells of the whole, so no caller has to put two parts together.
// A loop: for C the library calls nothing but memcpy and memset, and `copy_from_slice` calls memmove.
#[tactic(auto, using(crate::proofs::Steps::copies))]
pub fn copy(buffer: &mut [u8], at: usize, bytes: &[u8])
    requires { at + length bytes.now ≤ length buffer.old }
    ensures { buffer.new ≡ copy_of buffer.old at bytes.now }
{
    for (i, b) in bytes.iter().enumerate() {
        buffer[at + i] = *b;
    }
}

/// `count` bytes from place `at` on become `x`; all else stays.
// At a place, as `copy`.
pub fn fill(buffer: &mut [u8], at: usize, count: usize, x: u8)
    requires { at + count ≤ length buffer.old }
    ensures { buffer.new ≡ copy_of buffer.old at (replicate count x) }
{
    buffer[at..at + count].fill(x);
}

/// Writes `bytes` at the buffer's start; the rest stays.
pub fn write(buffer: &mut [u8], bytes: &[u8])
    requires { length bytes.now ≤ length buffer.old }
    ensures { buffer.new ≡ overlay bytes.now buffer.old }
{
    copy(buffer, 0, bytes);
}

/// The first byte, or 0 where there is none.
pub fn first_byte(bytes: &[u8]) -> u8
    ensures { result ≡ slice_index bytes.now 0 }
{
    bytes.first().copied().unwrap_or(0)
}

/// The first `n` bytes, or all where there are fewer.
pub fn first(bytes: &[u8], n: usize) -> &[u8]
    ensures { result.now ≡ take n bytes.now }
{
    bytes.get(..n).unwrap_or(bytes)
}

/// The two bytes from place `at` on as one number, the higher first.
pub fn pair_at(bytes: &[u8], at: usize) -> u16
    requires { at + 1 < length bytes.now }
    ensures { result ≡ pair_at bytes.now at }
{
    u16::from_be_bytes([bytes[at], bytes[at + 1]])
}
