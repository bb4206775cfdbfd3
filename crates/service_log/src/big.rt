// Numbers as so many bytes, most significant first.
ghost use Rattle.std.specs.Prelude.{◌≡◌, ◌+◌, ◌≤◌, length};
ghost use Rattle.basis.specs.Lists.{copy_of};
ghost use Rattle.service_log.specs.Big.{big_of, big_at, fits_in};

use basis::buffers::copy;

/// Whether `width` bytes hold `x`.
// A width and no board, here and below: `big_of` is told of any.
pub fn fits_in(width: usize, x: u32) -> bool
    requires { width ≤ 4 }
    ensures { result ≡ fits_in width x }
{
    u64::from(x) >> (8 * width) == 0
}

/// The `width` bytes of `x` from place `at` on.
// At a place, as `copy`.
#[tactic(auto, using(crate::proofs::Steps::bytes))]
pub fn put_big(buffer: &mut [u8], at: usize, width: usize, x: u32)
    requires width { width ≤ 4 }
    requires room { at + width ≤ length buffer.old }
    ensures { buffer.new ≡ copy_of buffer.old at (big_of width x) }
{
    copy(buffer, at, &x.to_be_bytes()[4 - width..]);
}

/// The number that `width` bytes from place `at` on say.
// By place, as `big_at` counts.
pub fn big_at(bytes: &[u8], at: usize, width: usize) -> u32
    requires width { width ≤ 4 }
    requires room { at + width ≤ length bytes.now }
    ensures { result ≡ big_at width bytes.now at }
{
    let mut n = 0;
    for i in 0..width {
        n = n * 256 + u32::from(bytes[at + i]);
    }
    n
}
