// Hex files for C: the reader, record by record, and the writer.
ghost use Rattle.std.specs.Prelude.{◌≡◌, length};
ghost use Rattle.basis.specs.Lists.{overlay};
ghost use Rattle.basis.specs.Refusals.{refused};
ghost use Rattle.gremolunde.specs.Answers.{no_reader, hex_answer, written_answer};
ghost use Rattle.gremolunde.specs.Files.{start_on, record_on, close_on, write_on};
ghost use Rattle.image.specs.Paper.{paper_read, paper_written};
ghost use Rattle.image.specs.Record.{wrong};
ghost use Rattle.image.specs.Writer.{measured, text_bytes};

use crate::answers::UNKNOWN_BOARD;
use crate::states::{HexState, hex_meant, hex_shown};
use basis::board::Board;
use basis::numbered::Numbered;
use basis::units::Address;
use image::hex::Hex;
use image::record::{Blame, Refusal};
use image::writer::{Written, write};

/// The next state of the reader; a refusal hands it back as it came, and has its column, counted from 0; 0 where it
/// has none.
#[repr(C)]
#[derive(Clone, Copy)]
pub struct HexRead {
    pub number: u32,
    pub column: usize,
    pub reader: HexState,
}

/// The address to go on from, the upper half to go on with, and how many characters were written; a refusal hands both
/// back.
#[repr(C)]
#[derive(Clone, Copy)]
pub struct HexWritten {
    pub number: u32,
    pub next: u32,
    pub upper: u16,
    pub length: usize,
}

/// A reader at the start of a file for the board of so many pages: the image is filled with 0xFF, the map with 0.
/// 65 no such board, 20 an image or a map of a wrong size, 34 no such rule set; they leave both as they were.
#[tactic(auto, unfolding(image::specs::Record::column_of))]
#[unsafe(no_mangle)]
pub extern "C" fn gremolunde_hex_start(
    board: u32,
    rules: u32,
    image: &mut [u8],
    map: &mut [u8],
) -> HexRead
    ensures answer { result ≡ hex_answer no_reader board (start_on board rules image.old map.old).answer }
    ensures image { image.new ≡ (start_on board rules image.old map.old).image }
    ensures map { map.new ≡ (start_on board rules image.old map.old).map }
{
    let Some(known) = Board::of(board) else {
        return hex_unknown(no_reader());
    };
    hex_answer(no_reader(), board, Hex::start(known, rules, image, map))
}

/// What a start that is refused hands back.
pub fn no_reader() -> HexState
    ensures { result ≡ no_reader }
{
    HexState::default()
}

/// The next record, its line end removed. 65 no such board, 20 an image or a map of a wrong size, 34 no such rule set,
/// 21 behind the end record, 22 to 30 as the record has them; they leave image, map and reader as they were.
#[tactic(auto, unfolding(image::specs::Record::column_of))]
#[unsafe(no_mangle)]
pub extern "C" fn gremolunde_hex_record(
    reader: HexState,
    line: &[u8],
    image: &mut [u8],
    map: &mut [u8],
) -> HexRead
    ensures answer { let o = record_on reader line.now image.old map.old in
        result ≡ hex_answer reader reader.board o.answer }
    ensures image { image.new ≡ (record_on reader line.now image.old map.old).image }
    ensures map { map.new ≡ (record_on reader line.now image.old map.old).map }
{
    let Some(known) = Board::of(reader.board) else {
        return hex_unknown(reader);
    };
    hex_answer(
        reader,
        reader.board,
        hex_meant(reader).record(known, line, image, map),
    )
}

/// The end of the file. 65 no such board, 34 no such rule set, 31 no end record came, 32 no data byte.
#[tactic(auto, unfolding(image::specs::Record::column_of))]
#[unsafe(no_mangle)]
pub extern "C" fn gremolunde_hex_close(reader: HexState) -> HexRead
    ensures { result ≡ hex_answer reader reader.board (close_on reader) }
{
    let Some(_) = Board::of(reader.board) else {
        return hex_unknown(reader);
    };
    hex_answer(reader, reader.board, hex_meant(reader).close())
}

/// What the reader answers, with the state that it came from; the next one is for the same board.
pub fn hex_answer(reader: HexState, board: u32, answer: Result<Hex, Blame>) -> HexRead
    ensures { result ≡ hex_answer reader board (paper_read answer) }
{
    match answer {
        Ok(next) => HexRead {
            number: 0,
            column: 0,
            reader: hex_shown(board, next),
        },
        Err(why) => HexRead {
            number: why.refusal.number(),
            column: why.column,
            reader,
        },
    }
}

fn hex_unknown(reader: HexState) -> HexRead
    ensures { result ≡ hex_answer reader 0 (wrong 65 0) }
{
    HexRead {
        number: UNKNOWN_BOARD,
        column: 0,
        reader,
    }
}

/// The next record of the named bytes from an address on, closed by 0A, at the start of the buffer. 65 no such board,
/// 20 an image or a map of a wrong size, 33 a buffer of less than 44 bytes; they write nothing.
#[unsafe(no_mangle)]
pub extern "C" fn gremolunde_hex_write(
    board: u32,
    image: &[u8],
    map: &[u8],
    from: u32,
    upper: u16,
    buffer: &mut [u8],
) -> HexWritten
    ensures answer { let a = write_on board image.now map.now from upper (length buffer.old) in
        result ≡ written_answer from upper (measured a) }
    ensures buffer { let a = write_on board image.now map.now from upper (length buffer.old) in
        buffer.new ≡ overlay (text_bytes a) buffer.old }
{
    let Some(known) = Board::of(board) else {
        return not_written(UNKNOWN_BOARD, from, upper);
    };
    written_answer(
        from,
        upper,
        write(known, image, map, Address(from), upper, buffer),
    )
}

fn written_answer(from: u32, upper: u16, answer: Result<Written, Refusal>) -> HexWritten
    ensures { result ≡ written_answer from upper (paper_written answer) }
{
    match answer {
        Ok(written) => HexWritten {
            number: 0,
            next: written.next.0,
            upper: written.upper,
            length: written.length,
        },
        Err(why) => not_written(why.number(), from, upper),
    }
}

fn not_written(number: u32, from: u32, upper: u16) -> HexWritten
    ensures { result ≡ written_answer from upper (refused number) }
{
    HexWritten {
        number,
        next: from,
        upper,
        length: 0,
    }
}
