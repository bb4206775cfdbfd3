// The map of named addresses: one bit an address, lowest bit first.
// It is asked by `Address`, so that no page number is passed for one; the caller shows that the map has it.
ghost use Rattle.std.specs.Prelude.{◌≡◌, ◌*◌, ◌<◌, ◌==◌, length, IfSome, is_some};
ghost use Rattle.basis.specs.Board.{pages_of};
ghost use Rattle.basis.specs.Units.{start_of, map_bytes};
ghost use Rattle.runs.specs.Map.{named, name_of};
ghost use Rattle.runs.specs.Sizes.{FitsMap};

use basis::board::Board;
use basis::units::Address;

/// A board's map of one bit an address: as long as the board asks.
#[derive(Clone, Copy)]
pub struct Map<'a> {
    pub board: Board,
    pub bits: &'a [u8],
    pub ghost fits: { FitsMap board bits.now },
}

impl<'a> Map<'a> {
    /// The map of these bytes, where they are as many as the board asks; else none.
    pub fn lend(board: Board, bits: &'a [u8]) -> Option<Map<'a>>
        ensures some { is_some result ≡ (length bits.now == map_bytes (pages_of board)) }
        ensures board { IfSome result (λ m. m.board ≡ board) }
        ensures bits { IfSome result (λ m. m.bits.now ≡ bits.now) }
    {
        if bits.len() == board.map() {
            return Some(Map { board, bits });
        }
        None
    }

    /// Whether the address is named.
    pub fn names(self, address: Address) -> bool
        requires { address.0 < start_of (pages_of self.board) }
        ensures { result ≡ named self.entry.bits.now address.0 }
    {
        named(self.bits, address)
    }
}

/// Whether the map of these bytes names the address.
#[tactic(auto, unfolding(crate::specs::Map::named))]
pub fn named(map: &[u8], address: Address) -> bool
    requires { address.0 < 8 * length map.now }
    ensures { result ≡ named map.now address.0 }
{
    let at = address.0 as usize;
    (map[at / 8] >> (at % 8)) % 2 == 1
}

/// Names the address; all other bits stay.
pub fn name(map: &mut [u8], address: Address)
    requires { address.0 < 8 * length map.old }
    ensures { map.new ≡ name_of map.old address.0 }
{
    let at = address.0 as usize;
    let byte = at / 8;
    let bit = at % 8;
    map[byte] |= 1 << bit;
}
