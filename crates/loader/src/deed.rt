// What an accepted input does, and the one place where it is done; judging it only reads.
ghost use Rattle.std.specs.Prelude.{◌≡◌, length};
ghost use Rattle.basis.specs.Board.{pages_of};
ghost use Rattle.basis.specs.Units.{start_of};
ghost use Rattle.loader.specs.Commands.{added_of};
ghost use Rattle.loader.specs.Deeds.{Fits, deed_of};

use crate::protection::Protection;
use crate::state::{Condition, Loader};
use basis::board::Board;
use basis::units::{Address, Group};
use packet::read::Packet;

/// What an accepted input does.
#[derive(Clone, Copy, Debug, PartialEq, Eq)]
pub enum Deed {
    /// The board is opened.
    Serve,
    /// So many bytes from a page's start become 0xFF.
    Erase(Address, usize),
    /// All of flash does, and nothing is protected any more.
    MassErase,
    /// A W, whose bytes stand in the input.
    Store(Packet),
    /// A V that found what it sent.
    Nothing,
    /// A protect sequence opens.
    Open,
    /// It grows by the address's group, or past flash by reading.
    Add(Address),
    /// It closes with its key.
    Close(u32),
    /// R.
    Leave,
}

/// The loader after a deed. An input changes loader and flash here and nowhere else.
pub fn apply(board: Board, deed: Deed, loader: Loader, input: &[u8], flash: &mut [u8]) -> Loader
    requires flash { length flash.old ≡ start_of (pages_of board) }
    requires fits { Fits (pages_of board) deed input.now }
    ensures loader { result ≡ (deed_of (pages_of board) deed loader input.now flash.old).loader }
    ensures flash { flash.new ≡ (deed_of (pages_of board) deed loader input.now flash.old).flash }
{
    match deed {
        Deed::Serve => loader.with_condition(Condition::Serving),
        Deed::Erase(from, count) => {
            image::flash::erase(flash, from, count);
            loader
        }
        Deed::MassErase => {
            let end = flash.len();
            image::flash::erase(flash, Address(0), end);
            loader.cleared()
        }
        Deed::Store(packet) => {
            let end = packet.at + packet.len;
            image::flash::store(flash, packet.address, &input[packet.at..end]);
            loader
        }
        Deed::Nothing => loader,
        Deed::Open => loader.with_added(Protection::none()),
        Deed::Add(address) => loader.with_added(added(board, loader.sequence.added, address)),
        Deed::Close(key) => loader.joined(key),
        Deed::Leave => loader.with_condition(Condition::Left),
    }
}

// The address past flash is read protection.
fn added(board: Board, protection: Protection, address: Address) -> Protection
    ensures { result ≡ added_of (pages_of board) protection address.0 }
{
    if address < board.end() {
        protection.with_group(Group::from(address))
    } else {
        protection.with_read()
    }
}
