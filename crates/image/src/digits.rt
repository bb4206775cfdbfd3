// The characters of a hex file: a byte is two digits, the higher first.
ghost use Rattle.std.specs.Prelude.{◌≡◌, ◌/◌, ◌%◌, ◌<◌, ◌≤◌, length, drop, IfSome, IfErr, unwrap_or};
ghost use Rattle.basis.specs.Lists.{copy_of};
ghost use Rattle.image.specs.Digits.{digit_of, first_bad, decoded};
ghost use Rattle.image.specs.Paper.{place_or};

// The value of a digit in either case.
#[tactic(auto, unfolding(crate::specs::Digits::digit_of))]
fn digit(c: u8) -> Option<u8>
    ensures value { unwrap_or result 16 ≡ digit_of c }
    ensures below { IfSome result (λ d. d < 16) }
{
    match c {
        b'0'..=b'9' => Some(c - b'0'),
        b'A'..=b'F' => Some(c - b'A' + 10),
        b'a'..=b'f' => Some(c - b'a' + 10),
        _ => None,
    }
}

/// The characters after the first, as bytes at the front of `bytes`: two digits a byte, the higher first.
/// An error is the place of the first that is no digit; the bytes before it are decoded by then.
#[tactic(auto, using(crate::proofs::Decoding::decodings))]
pub fn decode(line: &[u8], bytes: &mut [u8]) -> Result<(), usize>
    requires odd { length line.now % 2 ≡ 1 }
    requires room { length line.now / 2 ≤ length bytes.old }
    ensures place { place_or (length line.now) result ≡ first_bad line.now }
    ensures inside { IfErr result (λ place. place < length line.now) }
    ensures bytes { bytes.new ≡ copy_of bytes.old 0 (decoded (drop 1 line.now)) }
{
    // By place and no `chunks_exact`: an error is the place of its character, and `bytes` is written at half of it.
    for i in 0..line.len() / 2 {
        let high = digit(line[2 * i + 1]).ok_or(2 * i + 1)?;
        let low = digit(line[2 * i + 2]).ok_or(2 * i + 2)?;
        bytes[i] = 16 * high + low;
    }
    Ok(())
}
