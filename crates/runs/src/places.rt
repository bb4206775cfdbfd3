// Named addresses in order: the next one, whether one of some is named, how many stand in a row.
// And naming some that stand in a row.
ghost use Rattle.std.specs.Prelude.{◌≡◌, ◌+◌, ◌-◌, ◌*◌, ◌^◌, ◌<◌, ◌≤◌, length, IfSome};
ghost use Rattle.basis.specs.Board.{pages_of};
ghost use Rattle.basis.specs.Units.{start_of};
ghost use Rattle.runs.specs.Found.{address_or};
ghost use Rattle.runs.specs.Map.{named, any_named, name_all_of, Stride};
ghost use Rattle.runs.specs.Runs.{next, len};

use crate::map::{Map, name, named};
use basis::board::DATA;
use basis::units::Address;

/// A piece has at most as many bytes as a packet carries.
pub const PIECE: u32 = DATA as u32;

impl Map<'_> {
    /// The lowest named address from `from` on; none where there is no more.
    pub fn next_named(self, from: Address) -> Option<Address>
        ensures next { let f = start_of (pages_of self.entry.board) - from.0 in
            address_or (from.0 + f) result ≡ next (named self.entry.bits.now) from.0 f }
        ensures below { IfSome result (λ a. a.0 < start_of (pages_of self.entry.board)) }
    {
        next_named(self.bits, from, self.board.end())
    }

    /// How many named bytes stand in a row from `from` on, at most `cap`.
    pub fn row_len(self, from: Address, cap: u32) -> u32
        requires { from.0 + cap < 2 ^ 32 }
        ensures row { result ≡ len (named self.entry.bits.now) from.0 cap }
        ensures most { result ≤ cap }
    {
        row_len(self.bits, from, cap)
    }
}

/// The lowest named address from `from` on and below `limit`, in a map of any length; none where there is none.
// Over bytes beside the method: docs/CONTRACTS.md names it for a map of any length, and `any_named` asks it.
// `row_len`, `named`, `touched` and `next_touched` stand there too.
#[tactic(auto, using(crate::proofs::Turns::searches))]
pub fn next_named(map: &[u8], from: Address, limit: Address) -> Option<Address>
    requires { limit.0 ≤ 8 * length map.now }
    ensures next { let f = limit.0 - from.0 in
        address_or (from.0 + f) result ≡ next (named map.now) from.0 f }
    ensures below { IfSome result (λ a. a.0 < limit.0) }
{
    for at in from.0..limit.0 {
        if named(map, Address(at)) {
            return Some(Address(at));
        }
    }
    None
}

/// How many named bytes stand in a row from `from` on, at most `cap`, in a map of any length.
// No `for`: a step takes eight addresses where it can.
#[tactic(auto, using(crate::proofs::Turns::rows))]
pub fn row_len(map: &[u8], from: Address, cap: u32) -> u32
    requires { from.0 + cap < 2 ^ 32 }
    ensures row { result ≡ len (named map.now) from.0 cap }
    ensures most { result ≤ cap }
{
    let mut n = 0;
    while n < cap {
        let Some(more) = stride(map, Address(from.0 + n), cap - n) else {
            return n;
        };
        n += more;
    }
    n
}

// The next step of a row: eight addresses where a whole byte of the map names them, else one;
// none at the row's end.
#[tactic(auto, using(crate::proofs::Turns::strides))]
fn stride(map: &[u8], from: Address, most: u32) -> Option<u32>
    requires { 0 < most }
    ensures { Stride map.now from.0 most result }
{
    let byte = (from.0 / 8) as usize;
    if map.len() <= byte || !named(map, from) {
        return None;
    }
    if most < 8 || from.0 % 8 != 0 || map[byte] != 0xFF {
        return Some(1);
    }
    Some(8)
}

/// Whether one of `count` addresses from `from` on is named.
// Over bytes, as is `name_all`: the hex reader has a map to write, and so no `Map`.
#[tactic(auto, using(crate::proofs::Searches::searches))]
pub fn any_named(map: &[u8], from: Address, count: u32) -> bool
    requires inside { from.0 + count ≤ 8 * length map.now }
    requires fits { from.0 + count < 2 ^ 32 }
    ensures { result ≡ any_named map.now from.0 count }
{
    next_named(map, from, Address(from.0 + count)).is_some()
}

/// Names `count` addresses from `from` on; all other bits stay.
#[tactic(auto, using(crate::proofs::Turns::names))]
pub fn name_all(map: &mut [u8], from: Address, count: u32)
    requires inside { from.0 + count ≤ 8 * length map.old }
    requires fits { from.0 + count < 2 ^ 32 }
    ensures { map.new ≡ name_all_of map.old from.0 count }
{
    for at in from.0..from.0 + count {
        name(map, Address(at));
    }
}
