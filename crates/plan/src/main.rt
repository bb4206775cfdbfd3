// Reads hex text on standard input and prints the packets of a load
// that ends with a reset, or one line on a refusal.
#![tactic(auto)]

ghost use Rattle.std.specs.Prelude.{◌≤◌, length};
ghost use Rattle.listing.specs.Plan.{longest_line};

use basis::board::{Board, PAGE, SHORT_PAGES};
use basis::buffers::first;
use listing::plan::{Listing, head_line, total_line};
use listing::refusals::refusal_at;
use listing::text::{self, Blame, LINE, Text};
use std::io;
use std::io::Read;

// The program is for the short board.
const SIZE: usize = (SHORT_PAGES * PAGE) as usize;

const MAP: usize = SIZE / 8;

// How many bytes one read takes, and one write.
const ROOM: usize = 65536;

fn main(rt: HostRuntime) -> io::Result<()> {
    let mut image = [0u8; SIZE];
    let mut map = [0u8; MAP];
    // one buffer, of what is read and then of what is written
    let mut buffer = [0u8; ROOM];
    match read_all(&rt, &mut buffer, &mut image, &mut map)? {
        Ok(_) => print(&rt, &image, &map, &mut buffer),
        Err(blame) => {
            let n = refusal_at(&mut buffer, blame);
            rt.write_all(first(&buffer, n))
        }
    }
}

// To the input's end, or to the first refusal: what comes after that counts for nothing.
fn read_all(
    rt: &impl Input,
    buffer: &mut [u8],
    image: &mut [u8],
    map: &mut [u8],
) -> io::Result<Result<Text, Blame>> {
    let mut reader = rt.reader();
    let mut line = [0u8; LINE];
    let mut reading = text::start(Board::Short, image, map);
    // every loop ends; no input has so many reads
    for _ in 0..u64::MAX {
        let n = reader.read(buffer)?;
        if n == 0 {
            return Ok(text::close(reading, Board::Short, &line, image, map));
        }
        reading = text::feed(reading, Board::Short, &buffer[..n], &mut line, image, map);
        if reading.is_err() {
            return Ok(reading);
        }
    }
    Err(io::Error::other("standard input has no end"))
}

fn print(rt: &impl Print, image: &[u8], map: &[u8], buffer: &mut [u8]) -> io::Result<()>
    requires { longest_line ≤ length buffer.old }
{
    // a file that closed names a byte, so its listing is never refused
    let Ok(begun) = Listing::start(Board::Short, image, map) else {
        return Err(io::Error::other("the file has no packets"));
    };
    let head = head_line(buffer);
    rt.write_all(first(buffer, head))?;
    let mut listing = begun;
    while listing.listed < listing.total {
        let sheet = listing.sheet(Board::Short, image, map, buffer);
        listing = sheet.listing;
        rt.write_all(first(buffer, sheet.end))?;
    }
    let end = total_line(buffer, listing.total);
    rt.write_all(first(buffer, end))
}
