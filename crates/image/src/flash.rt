// Flash as its bytes: a range is erased, bytes are stored. A controller that lost its power has the first of them
// alone, so both have a loop of their own that goes upward: `fill` and `copy` of the library promise no order.
// By place, and not over the part that is written: `erase_of` and `store_of` tell of the whole flash by place.
ghost use Rattle.std.specs.Prelude.{◌≡◌, ◌+◌, ◌≤◌, length};
ghost use Rattle.image.specs.Flash.{erase_of, store_of};

use basis::units::Address;

/// `count` bytes from an address on become 0xFF, one after another and upward.
#[tactic(auto, using(crate::proofs::Turns::erases))]
pub fn erase(flash: &mut [u8], from: Address, count: usize)
    requires { from.0 + count ≤ length flash.old }
    ensures { flash.new ≡ erase_of flash.old from.0 count }
{
    let at = from.0 as usize;
    for i in 0..count {
        flash[at + i] = 0xFF;
    }
}

/// The bytes are stored from an address on, one after another and upward. A store can clear bits and never sets one.
#[tactic(auto, using(crate::proofs::Turns::stores))]
pub fn store(flash: &mut [u8], from: Address, bytes: &[u8])
    requires { from.0 + length bytes.now ≤ length flash.old }
    ensures { flash.new ≡ store_of flash.old from.0 bytes.now }
{
    let at = from.0 as usize;
    for (i, b) in bytes.iter().enumerate() {
        flash[at + i] &= *b;
    }
}
