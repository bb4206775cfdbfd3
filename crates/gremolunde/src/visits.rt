// For C, what is done for a station: its file opened, its session started.
ghost use Rattle.std.specs.Prelude.{◌≡◌, length};
ghost use Rattle.basis.specs.Lists.{overlay};
ghost use Rattle.gremolunde.specs.Answers.{no_reader, hex_answer, no_session, stepped_answer};
ghost use Rattle.image.specs.Hex.{settled};
ghost use Rattle.image.specs.Record.{pointed, no_line};
ghost use Rattle.session.specs.Session.{measured, sent_bytes};
ghost use Rattle.visit.specs.Paper.{paper_opened};
ghost use Rattle.visit.specs.Visit.{station_pages, start_for, open_for};

use crate::files::{HexRead, hex_answer, no_reader};
use crate::sessions::{SessionStepped, no_session, stepped_answer};
use basis::board::SHORT_PAGES;
use basis::numbered::Numbered;
use image::hex::Hex;
use visit::open::{Unopened, open};
use visit::start::start;

/// The hex reader at the start of a file for the station of that number, under its rule set, the image filled with
/// 0xFF and the map with 0. 60 where the table holds no such station, then 20 for an image or a map that has not the
/// short board's size: both stay as they were, and the reader is all 0.
#[unsafe(no_mangle)]
pub extern "C" fn gremolunde_station_open(
    table: &[u8],
    station: u32,
    image: &mut [u8],
    map: &mut [u8],
) -> HexRead
    ensures answer { let a = pointed no_line (open_for table.now station image.old map.old) in
        result ≡ hex_answer no_reader station_pages (settled a image.old map.old).answer }
    ensures image { let a = pointed no_line (open_for table.now station image.old map.old) in
        image.new ≡ (settled a image.old map.old).image }
    ensures map { let a = pointed no_line (open_for table.now station image.old map.old) in
        map.new ≡ (settled a image.old map.old).map }
{
    opened_answer(open(table, station, image, map))
}

fn opened_answer(answer: Result<Hex, Unopened>) -> HexRead
    ensures { result ≡ hex_answer no_reader station_pages (paper_opened answer) }
{
    match answer {
        Ok(next) => hex_answer(no_reader(), SHORT_PAGES, Ok(next)),
        Err(Unopened::Hex(why)) => hex_answer(no_reader(), SHORT_PAGES, Err(why)),
        Err(why) => HexRead {
            number: why.number(),
            column: 0,
            reader: no_reader(),
        },
    }
}

/// The session of a file on the short board with the run kind of the station of that number, its first packet in the
/// buffer. 60 where the table holds no such station, then 20 for the size of image, map or buffer, 32 for a map that
/// names nothing, 64 where a page that the file touches lies below the station's first or above its last: the buffer
/// stays as it was, and the session is all 0.
#[unsafe(no_mangle)]
pub extern "C" fn gremolunde_station_start(
    table: &[u8],
    station: u32,
    image: &[u8],
    map: &[u8],
    buffer: &mut [u8],
) -> SessionStepped
    ensures answer { let a = start_for table.now station image.now map.now (length buffer.old) in
        result ≡ stepped_answer no_session (measured a) }
    ensures bytes { let a = start_for table.now station image.now map.now (length buffer.old) in
        buffer.new ≡ overlay (sent_bytes a) buffer.old }
{
    stepped_answer(no_session(), start(table, station, image, map, buffer))
}
