// The packet of a step, built into the caller's buffer.
ghost use Rattle.std.specs.Prelude.{◌≡◌, true, ◌+◌, ◌<◌, ◌≤◌, ◌∷◌, [], length, get_or, take, drop};
ghost use Rattle.basis.specs.Board.{pages_of, pages_most};
ghost use Rattle.basis.specs.Lists.{overlay};
ghost use Rattle.basis.specs.Units.{start_of};
ghost use Rattle.packet.specs.Packet.{packet, packet_most};
ghost use Rattle.packet.specs.Table.{erase_byte, listed, in_shape};
ghost use Rattle.runs.specs.Pieces.{piece_most, piece_starts, run_starts};
ghost use Rattle.order.specs.Steps.{at_start, packet_of};
ghost use Rattle.order.specs.Plan.{carries_piece, piece_bytes, erase_packet, run_packet};

use crate::step::Step;
use basis::kind::RunKind;
use basis::units::{Address, Page};
use packet::build::build;
use packet::table::{ERASE, RUN, VERIFY, WRITE};
use runs::file::File;
use runs::map::Map;
use runs::places::PIECE;

/// Builds the packet of a step at the buffer's start, and gives its length; to hold there is no R, so nothing is built.
// The room stands in each contract below: the buffer is lent by C, with 259 bytes or more, so it is no array.
pub fn send(file: File<'_>, kind: RunKind, step: Step, buffer: &mut [u8]) -> usize
    requires room { packet_most ≤ length buffer.old }
    requires start { at_start (pages_of file.map.board) file.map.bits.now step ≡ true }
    ensures length { let b = pages_of file.entry.map.board in
        result ≡ length (packet_of b file.entry.image.now file.entry.map.bits.now kind step) }
    ensures bytes { let b = pages_of file.entry.map.board in
        let p = packet_of b file.entry.image.now file.entry.map.bits.now kind step in
        buffer.new ≡ overlay p buffer.old }
{
    match step {
        Step::Erase(page) => send_erase(file.map, page, buffer),
        Step::Write(address) => send_piece(file, WRITE, address, buffer),
        Step::Verify(address) => send_piece(file, VERIFY, address, buffer),
        Step::Run => put_run(kind, buffer),
    }
}

#[tactic(auto, using(crate::proofs::Starts::below))]
fn send_erase(map: Map<'_>, page: Page, buffer: &mut [u8]) -> usize
    requires room { packet_most ≤ length buffer.old }
    requires start { run_starts (pages_of map.board) map.bits.now page.0 ≡ true }
    ensures length { result ≡ length (erase_packet (pages_of map.entry.board) map.entry.bits.now page.0) }
    ensures bytes { let p = erase_packet (pages_of map.entry.board) map.entry.bits.now page.0 in
        buffer.new ≡ overlay p buffer.old }
{
    put_erase(page, map.run_len(page), buffer)
}

// W or V.
#[tactic(auto, using(crate::proofs::Starts::pieces))]
fn send_piece(file: File<'_>, command: u8, address: Address, buffer: &mut [u8]) -> usize
    requires room { packet_most ≤ length buffer.old }
    requires command { carries_piece command ≡ true }
    requires start { piece_starts file.map.bits.now address.0 ≡ true }
    ensures length { let d = piece_bytes file.entry.image.now file.entry.map.bits.now address.0 in
        result ≡ length (packet command address.0 d) }
    ensures bytes { let d = piece_bytes file.entry.image.now file.entry.map.bits.now address.0 in
        buffer.new ≡ overlay (packet command address.0 d) buffer.old }
{
    let count = file.map.row_len(address, PIECE);
    put_piece(file.image, command, address, count, buffer)
}

/// E for `count` pages from `page` on; gives its length.
pub fn put_erase(page: Page, count: u32, buffer: &mut [u8]) -> usize
    requires page { page.0 < pages_most }
    requires count { count ≤ pages_most }
    requires room { packet_most ≤ length buffer.old }
    ensures length { result ≡ length (packet erase_byte (start_of page.0) (count ∷ [])) }
    ensures bytes { buffer.new ≡ overlay (packet erase_byte (start_of page.0) (count ∷ [])) buffer.old }
{
    let pages = [count as u8];
    put(buffer, ERASE, page.start(), &pages)
}

/// W or V of `count` bytes of the image from `address` on; gives its length.
pub fn put_piece(
    image: &[u8],
    command: u8,
    address: Address,
    count: u32,
    buffer: &mut [u8],
) -> usize
    requires command { carries_piece command ≡ true }
    requires some { 0 < count }
    requires most { count ≤ piece_most }
    requires inside { address.0 + count ≤ length image.now }
    requires small { length image.now ≤ start_of pages_most }
    requires room { packet_most ≤ length buffer.old }
    ensures length { let d = take count (drop address.0 image.now) in
        result ≡ length (packet command address.0 d) }
    ensures bytes { let d = take count (drop address.0 image.now) in
        buffer.new ≡ overlay (packet command address.0 d) buffer.old }
{
    let from = address.0 as usize;
    let end = from + (count as usize);
    put(buffer, command, address, &image[from..end])
}

/// R, or to hold nothing; gives its length.
pub fn put_run(kind: RunKind, buffer: &mut [u8]) -> usize
    requires { packet_most ≤ length buffer.old }
    ensures length { result ≡ length (run_packet kind) }
    ensures bytes { buffer.new ≡ overlay (run_packet kind) buffer.old }
{
    match kind {
        RunKind::Reset => put(buffer, RUN, Address(1), b""),
        RunKind::Jump => put(buffer, RUN, Address(0), b""),
        // Never asked: hold has no such step.
        RunKind::Hold => 0,
    }
}

// A packet that stands in the table, into a buffer that has room for any; so it is never refused.
#[tactic(auto, using(crate::proofs::Starts::puts))]
fn put(buffer: &mut [u8], command: u8, address: Address, plain: &[u8]) -> usize
    requires room { packet_most ≤ length buffer.old }
    requires listed { listed command ≡ true }
    requires shape { in_shape command (length plain.now + 5) (get_or plain.now 0 0) ≡ true }
    ensures length { result ≡ length (packet command address.0 plain.now) }
    ensures bytes { buffer.new ≡ overlay (packet command address.0 plain.now) buffer.old }
{
    build(buffer, command, address, plain).unwrap_or(0)
}
