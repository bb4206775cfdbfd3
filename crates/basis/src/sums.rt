// The sum of bytes by wrapping adds, and its wrapping complement: for packets and hex records alike.
ghost use Rattle.std.specs.Prelude.{◌≡◌};
ghost use Rattle.basis.specs.Sums.{sum_of, complement_of, checksum_of};

/// The low byte of the sum of the bytes.
#[tactic(auto, using(crate::proofs::Steps::sums))]
pub fn sum(bytes: &[u8]) -> u8
    ensures { result ≡ sum_of bytes.now }
{
    let mut total: u8 = 0;
    for b in bytes {
        total = total.wrapping_add(*b);
    }
    total
}

/// The byte that makes the low byte of a total zero.
pub fn complement(total: u8) -> u8
    ensures { result ≡ complement_of total }
{
    total.wrapping_neg()
}

/// The byte that makes the low byte of the sum zero, once it is added.
pub fn checksum(bytes: &[u8]) -> u8
    ensures { result ≡ checksum_of bytes.now }
{
    complement(sum(bytes))
}
