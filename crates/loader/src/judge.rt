// A packet that was read is judged.
ghost use Rattle.std.specs.Prelude.{◌≡◌, List, ℕ, ◌+◌, ◌≤◌, length};
ghost use Rattle.basis.specs.Board.{pages_of};
ghost use Rattle.basis.specs.Units.{start_of};
ghost use Rattle.loader.specs.Commands.{obey_of};
ghost use Rattle.loader.specs.Deeds.{data_in, Judges};
ghost use Rattle.packet.specs.Paper.{paper_command};

use crate::deed::Deed;
use crate::erase::erase;
use crate::protect::protect;
use crate::run::run;
use crate::state::Loader;
use crate::verdict::Refusal;
use crate::verify::verify;
use crate::write::write;
use basis::board::Board;
use basis::buffers::first_byte;
use packet::read::Packet;
use packet::table::Command;

/// Judges a packet by its command. `sent` is what follows the address; the bytes of V are still turned.
#[tactic(auto, unfolding(crate::specs::Commands::obey_of))]
pub fn judge(
    board: Board,
    loader: Loader,
    packet: Packet,
    sent: &[u8],
    flash: &[u8],
) -> Result<Deed, Refusal>
    requires flash { length flash.now ≡ start_of (pages_of board) }
    requires sent { length sent.now ≡ packet.len }
    ensures { let f = flash.now in
        let d = sent.now in
        (s : List ℕ) → packet.at + packet.len ≤ length s → d ≡ data_in s packet
        → Judges (pages_of board) result loader s f
        (obey_of (pages_of board) loader (paper_command packet.command) packet.address.0 d f) }
{
    match packet.command {
        Command::Erase => erase(board, loader, packet.address, first_byte(sent)),
        Command::Write => write(board, loader, packet),
        Command::Verify => verify(board, loader, packet.address, sent, flash),
        Command::Protect => protect(board, loader, packet.address, first_byte(sent)),
        Command::Run => run(loader, packet.address),
    }
}
