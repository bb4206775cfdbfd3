// The packet that is due, its pages or bytes counted one by one.
ghost use Rattle.std.specs.Prelude.{◌≡◌, true, ◌<◌, ◌≤◌, length};
ghost use Rattle.basis.specs.Board.{pages_of};
ghost use Rattle.basis.specs.Lists.{overlay};
ghost use Rattle.basis.specs.Units.{start_of};
ghost use Rattle.order.specs.Plan.{carries_piece, piece_bytes, total};
ghost use Rattle.order.specs.Steps.{at_start, packet_of};
ghost use Rattle.packet.specs.Packet.{packet, packet_most};
ghost use Rattle.plain.specs.Plain.{picked};
ghost use Rattle.runs.specs.Pieces.{piece_len, piece_most, piece_starts};

use crate::list::list;
use basis::kind::RunKind;
use basis::units::Address;
use order::sending::{put_erase, put_piece, put_run};
use order::step::Step;
use packet::table::{VERIFY, WRITE};
use runs::file::File;
use runs::map::Map;
use runs::places::PIECE;

/// Picks the packet with number `due` from the list, writes it, and gives its length in bytes.
#[tactic(auto, using(crate::proofs::Sends::dues))]
pub fn send_due(file: File<'_>, kind: RunKind, due: u32, buffer: &mut [u8]) -> usize
    requires room { packet_most ≤ length buffer.old }
    requires due { due < total (pages_of file.map.board) file.map.bits.now kind }
    ensures len { let m = file.entry.map in
        let p = picked (pages_of m.board) file.entry.image.now m.bits.now kind due in
        result ≡ length p }
    ensures bytes { let m = file.entry.map in
        let p = picked (pages_of m.board) file.entry.image.now m.bits.now kind due in
        buffer.new ≡ overlay p buffer.old }
{
    let listed = list(file.map, kind, due);
    send(file, kind, listed.step, buffer)
}

// Beside `order::sending::send`: here the piece's bytes are counted one by one, so that `alike` compares two ways.
#[tactic(auto, using(order::proofs::Starts::below))]
fn send(file: File<'_>, kind: RunKind, step: Step, buffer: &mut [u8]) -> usize
    requires room { packet_most ≤ length buffer.old }
    requires start { at_start (pages_of file.map.board) file.map.bits.now step ≡ true }
    ensures len { let m = file.entry.map in
        let p = packet_of (pages_of m.board) file.entry.image.now m.bits.now kind step in
        result ≡ length p }
    ensures bytes { let m = file.entry.map in
        let p = packet_of (pages_of m.board) file.entry.image.now m.bits.now kind step in
        buffer.new ≡ overlay p buffer.old }
{
    match step {
        Step::Erase(page) => put_erase(page, file.map.run_len(page), buffer),
        Step::Write(at) => send_piece(file, WRITE, at, buffer),
        Step::Verify(at) => send_piece(file, VERIFY, at, buffer),
        Step::Run => put_run(kind, buffer),
    }
}

// W or V. The command stays a byte: `put_piece` takes it so, and `packet` is told of bytes.
#[tactic(auto, using(order::proofs::Starts::pieces))]
fn send_piece(file: File<'_>, command: u8, at: Address, buffer: &mut [u8]) -> usize
    requires room { packet_most ≤ length buffer.old }
    requires command { carries_piece command ≡ true }
    requires start { piece_starts file.map.bits.now at.0 ≡ true }
    ensures len { let d = piece_bytes file.entry.image.now file.entry.map.bits.now at.0 in
        result ≡ length (packet command at.0 d) }
    ensures bytes { let d = piece_bytes file.entry.image.now file.entry.map.bits.now at.0 in
        buffer.new ≡ overlay (packet command at.0 d) buffer.old }
{
    put_piece(file.image, command, at, piece_len(file.map, at), buffer)
}

// How many bytes the piece at `from` has: as many as are named in a row, and no more than a packet carries.
#[tactic(auto, using(crate::proofs::Sends::rows))]
fn piece_len(map: Map<'_>, from: Address) -> u32
    requires { from.0 < start_of (pages_of map.board) }
    ensures piece { result ≡ piece_len map.entry.bits.now from.0 }
    ensures most { result ≤ piece_most }
{
    let end = map.board.end();
    for n in 0..PIECE {
        let at = from.0 + n;
        if end.0 <= at {
            return n;
        }
        if !map.names(Address(at)) {
            return n;
        }
    }
    PIECE
}
