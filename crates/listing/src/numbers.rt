// Numbers and words, one behind the other in a lent buffer.
// Beside std's printing since they cannot fail, and ask for no writer; at a place, as `copy_of` tells of the whole
// buffer.
ghost use Rattle.std.specs.Prelude.{◌≡◌, ◌+◌, ◌≤◌, ◌++◌, length};
ghost use Rattle.basis.specs.Lists.{copy_of};
ghost use Rattle.listing.specs.Lines.{line_end};
ghost use Rattle.listing.specs.Numbers.{decimal_of};

use basis::buffers::copy;

/// The number in decimal, from place `at` on; gives the place behind it.
pub fn decimal(buffer: &mut [u8], at: usize, n: u64) -> usize
    requires { at + length (decimal_of n) ≤ length buffer.old }
    ensures end { result ≡ at + length (decimal_of n) }
    ensures buffer { buffer.new ≡ copy_of buffer.old at (decimal_of n) }
    ensures within { result ≤ at + 20 }
{
    if n < 10 {
        buffer[at] = b'0' + n as u8;
        return at + 1;
    }
    let end = decimal(buffer, at, n / 10);
    buffer[end] = b'0' + (n % 10) as u8;
    end + 1
}

/// A word and the number behind it, from place `at` on; gives the place behind them.
pub fn field(buffer: &mut [u8], at: usize, word: &[u8], n: u64) -> usize
    requires { at + length word.now + 20 ≤ length buffer.old }
    ensures end { result ≡ at + length (word.now ++ decimal_of n) }
    ensures buffer { buffer.new ≡ copy_of buffer.old at (word.now ++ decimal_of n) }
    ensures within { result ≤ at + length word.now + 20 }
{
    copy(buffer, at, word);
    decimal(buffer, at + word.len(), n)
}

/// The same, closed by 0A.
pub fn last_field(buffer: &mut [u8], at: usize, word: &[u8], n: u64) -> usize
    requires { at + length word.now + 21 ≤ length buffer.old }
    ensures end { result ≡ at + length ((word.now ++ decimal_of n) ++ line_end) }
    ensures buffer { buffer.new ≡ copy_of buffer.old at ((word.now ++ decimal_of n) ++ line_end) }
    ensures within { result ≤ at + length word.now + 21 }
{
    let end = field(buffer, at, word, n);
    buffer[end] = b'\n';
    end + 1
}
