// W: bytes are to be stored into flash, each old AND new.
ghost use Rattle.std.specs.Prelude.{◌≡◌, List, ℕ, ◌+◌, ◌≤◌, ltb, length};
ghost use Rattle.basis.specs.Board.{pages_of};
ghost use Rattle.basis.specs.Units.{start_of};
ghost use Rattle.loader.specs.Commands.{writing};
ghost use Rattle.loader.specs.Deeds.{data_in, Judges};

use crate::deed::Deed;
use crate::state::Loader;
use crate::verdict::Refusal;
use basis::board::{Board, GROUP};
use basis::units::{Address, Group};
use packet::read::Packet;

/// W: 9 while a protect sequence is open, 7 past the end of flash, 8 where a group of its range is protected.
#[tactic(auto, using(crate::proofs::Judging::lengths), unfolding(basis::specs::Refusals::first, crate::specs::Commands::writing, crate::specs::Commands::write_rows))]
pub fn write(board: Board, loader: Loader, packet: Packet) -> Result<Deed, Refusal>
    ensures { (s f : List ℕ) → packet.at + packet.len ≤ length s
        → Judges (pages_of board) result loader s f
        (writing (pages_of board) loader packet.address.0 (data_in s packet) f) }
{
    if loader.sequence.opened {
        return Err(Refusal::Sequence);
    }
    if past_end(board, packet.address, packet.len) {
        return Err(Refusal::Address);
    }
    let end = packet.address.0 + packet.len as u32;
    if loader.protection.any(
        Group::from(packet.address),
        Group::from(Address(end + (GROUP - 1))),
    ) {
        return Err(Refusal::Protected);
    }
    Ok(Deed::Store(packet))
}

/// Whether the range of a W or a V goes past the end of flash.
pub fn past_end(board: Board, address: Address, size: usize) -> bool
    ensures { result ≡ ltb (start_of (pages_of board)) (address.0 + size) }
{
    let past = board.size();
    if past < size {
        return true;
    }
    past - size < address.0 as usize
}
