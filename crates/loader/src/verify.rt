// V: the bytes sent, turned back, are compared with flash.
ghost use Rattle.std.specs.Prelude.{◌≡◌, List, ℕ, ◌+◌, ◌≤◌, length};
ghost use Rattle.basis.specs.Board.{pages_of};
ghost use Rattle.basis.specs.Refusals.{given, first};
ghost use Rattle.basis.specs.Units.{start_of};
ghost use Rattle.loader.specs.Commands.{verify_rows, keeping};
ghost use Rattle.loader.specs.Deeds.{Judges};
ghost use Rattle.loader.specs.Verify.{equals_of};

use crate::deed::Deed;
use crate::state::Loader;
use crate::verdict::Refusal;
use crate::write::past_end;
use basis::board::Board;
use basis::units::Address;
use packet::turn::restored;

/// V over so many bytes from `address` on: 9 while a protect sequence is open, 7 past the end of flash, 8 where
/// reading is protected, 10 where a byte differs. It does nothing.
#[tactic(auto, unfolding(basis::specs::Refusals::first, crate::specs::Commands::verify_rows))]
pub fn verify(
    board: Board,
    loader: Loader,
    address: Address,
    turned: &[u8],
    flash: &[u8],
) -> Result<Deed, Refusal>
    requires { length flash.now ≡ start_of (pages_of board) }
    ensures { let f = flash.now in
        let rows = verify_rows (pages_of board) loader address.0 turned.now f in
        (s : List ℕ) → Judges (pages_of board) result loader s f (keeping f (first rows (given loader))) }
{
    if loader.sequence.opened {
        return Err(Refusal::Sequence);
    }
    if past_end(board, address, turned.len()) {
        return Err(Refusal::Address);
    }
    if loader.protection.read {
        return Err(Refusal::Protected);
    }
    if !equals(flash, address.0 as usize, turned) {
        return Err(Refusal::Differs);
    }
    Ok(Deed::Nothing)
}

// Every byte, turned back, equals flash from `at` on.
// A `for` and no library `all`: `equals_of` is a recursion over the bytes, and each turn keeps what is left of it.
#[tactic(auto, using(crate::proofs::Turns::turns))]
fn equals(flash: &[u8], at: usize, turned: &[u8]) -> bool
    requires { at + length turned.now ≤ length flash.now }
    ensures { result ≡ equals_of flash.now at turned.now }
{
    for (i, t) in turned.iter().enumerate() {
        if flash[at + i] != restored(*t) {
            return false;
        }
    }
    true
}
