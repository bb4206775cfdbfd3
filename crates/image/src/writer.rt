// The hex writer: the next record of an image's named bytes, with the address and the upper half to go on from.
ghost use Rattle.std.specs.Prelude.{◌≡◌, ◌+◌, ◌*◌, ◌<◌, ◌≤◌, length};
ghost use Rattle.basis.specs.Lists.{overlay, copy_of};
ghost use Rattle.basis.specs.Board.{pages_of};
ghost use Rattle.basis.specs.Refusals.{given};
ghost use Rattle.basis.specs.Units.{start_of};
ghost use Rattle.image.specs.Paper.{paper_kind, paper_written, measured_of};
ghost use Rattle.image.specs.Writer.{letter_of, spelt, text, record_at, record_room, measured, text_bytes, write_in};

use crate::record::{Kind, Refusal};
use basis::board::Board;
use basis::sums::{complement, sum};
use basis::units::Address;
use runs::file::File;

/// The room that a record asks for: the characters of 16 bytes, and 0A.
pub const ROOM: usize = 44;

/// How many characters were written, and the address and the upper half to go on from.
#[derive(Clone, Copy, Debug, PartialEq, Eq)]
pub struct Written {
    pub length: usize,
    pub next: Address,
    pub upper: u16,
}

/// The record that starts at the lowest named byte from `from` on, closed by 0A, or the 04 record that comes
/// before it; the end record where no byte is named. From above the board nothing is written.
/// 20, then 33, which write nothing.
// Image and map come apart: any may be lent, and 20 answers another size.
#[tactic(auto, unfolding(basis::specs::Refusals::first, crate::specs::Writer::write_in, crate::specs::Writer::step_from))]
pub fn write(
    board: Board,
    image: &[u8],
    map: &[u8],
    from: Address,
    upper: u16,
    buffer: &mut [u8],
) -> Result<Written, Refusal>
    ensures answer { let size = start_of (pages_of board) in
        let w = write_in size image.now map.now from.0 upper (length buffer.old) in
        paper_written result ≡ measured w }
    ensures buffer { let size = start_of (pages_of board) in
        let w = write_in size image.now map.now from.0 upper (length buffer.old) in
        buffer.new ≡ overlay (text_bytes w) buffer.old }
{
    let Some(file) = File::lend(board, image, map) else {
        return Err(Refusal::Size);
    };
    if buffer.len() < ROOM {
        return Err(Refusal::Short);
    }
    let past = board.end();
    if past < from {
        return Ok(Written {
            length: 0,
            next: from,
            upper,
        });
    }
    let Some(place) = file.map.next_named(from) else {
        return Ok(Written {
            length: print(0, Kind::End, b"", buffer),
            next: Address(past.0 + 1),
            upper,
        });
    };
    Ok(record_at(file, from, upper, place, buffer))
}

// Where the place's upper half is not the one last written, a 04 record, and the address is kept.
// Else the data record; cut at the next multiple of 16, it has one upper half.
#[tactic(auto, using(crate::proofs::Boards::boards))]
fn record_at(
    file: File<'_>,
    from: Address,
    upper: u16,
    place: Address,
    buffer: &mut [u8],
) -> Written
    requires place { place.0 < start_of (pages_of file.map.board) }
    requires room { record_room ≤ length buffer.old }
    ensures answer { let m = file.entry.map.bits.now in
        let w = given (record_at file.entry.image.now m from.0 upper place.0) in
        given (measured_of result) ≡ measured w }
    ensures buffer { let m = file.entry.map.bits.now in
        let w = given (record_at file.entry.image.now m from.0 upper place.0) in
        buffer.new ≡ overlay (text_bytes w) buffer.old }
{
    let half = (place.0 / 65536) as u16;
    if half != upper {
        return Written {
            length: print(0, Kind::Linear, &half.to_be_bytes(), buffer),
            next: from,
            upper: half,
        };
    }
    let count = file.map.row_len(place, 16 - place.0 % 16);
    // A length of `count`: as an end less a start, it costs twice the instructions to spell.
    let first = place.0 as usize;
    let bytes = &file.image[first..first + count as usize];
    Written {
        length: print((place.0 % 65536) as u16, Kind::Data, bytes, buffer),
        next: Address(place.0 + count),
        upper,
    }
}

// A record of at most 16 bytes at the front of the buffer, and its length.
fn print(address: u16, kind: Kind, bytes: &[u8], buffer: &mut [u8]) -> usize
    requires few { length bytes.now ≤ 16 }
    requires room { record_room ≤ length buffer.old }
    ensures length { result ≡ length (text address (paper_kind kind) bytes.now) }
    ensures buffer { buffer.new ≡ overlay (text address (paper_kind kind) bytes.now) buffer.old }
{
    let n = bytes.len();
    let [high, low] = address.to_be_bytes();
    let head = [n as u8, high, low, u8::from(kind)];
    let total = sum(&head).wrapping_add(sum(bytes));
    let end = 9 + 2 * n;
    buffer[0] = b':';
    spell(buffer, 1, &head);
    spell(buffer, 9, bytes);
    spell(buffer, end, &[complement(total)]);
    buffer[end + 2] = b'\n';
    end + 3
}

/// The bytes as upper case digits, the higher first, from place `at` of the buffer on.
// At a place, as `copy`: no caller has to put two parts of the buffer together.
#[tactic(auto, using(crate::proofs::Turns::spells))]
pub fn spell(buffer: &mut [u8], at: usize, bytes: &[u8])
    requires { at + 2 * length bytes.now ≤ length buffer.old }
    ensures { buffer.new ≡ copy_of buffer.old at (spelt bytes.now) }
{
    for (i, b) in bytes.iter().enumerate() {
        let k = at + 2 * i;
        buffer[k] = letter(b / 16);
        buffer[k + 1] = letter(b % 16);
    }
}

#[tactic(auto, unfolding(crate::specs::Writer::letter_of))]
fn letter(d: u8) -> u8
    requires { d < 16 }
    ensures { result ≡ letter_of d }
{
    if d < 10 { b'0' + d } else { b'A' - 10 + d }
}
