// A station's record: read, and written in the version that it needs.
ghost use Rattle.std.specs.Prelude.{◌≡◌, ◌≤◌, ◌<◌, length, get_or, IfOk};
ghost use Rattle.basis.specs.Lists.{overlay};
ghost use Rattle.basis.specs.Refusals.{counted, written};
ghost use Rattle.stations.specs.Paper.{paper_answer};
ghost use Rattle.stations.specs.Station.{follows_of, fields_of, last_of, read_of, written_version, write_of};

use crate::station::{LAST_PAGE, Refusal, Station, is_version};
use basis::buffers::{pair_at, write as put};
use basis::units::Page;

// How many bytes follow the length field.
fn follows(version: u32) -> u16
    ensures length { result ≡ follows_of version }
    ensures least { 6 ≤ result }
    ensures most { result ≤ 7 }
{
    if version == 1 { 6 } else { 7 }
}

/// The station that a record tells. 63 for what is no record, or has a field out of range; 62 for another version.
#[tactic(auto, unfolding(basis::specs::Refusals::first, crate::specs::Station::read_of))]
pub fn read(input: &[u8]) -> Result<Station, Refusal>
    ensures answer { paper_answer result ≡ read_of input.now }
    ensures most { IfOk result (λ s. length input.now ≤ 9) }
{
    if input.len() < 3 {
        return Err(Refusal::Unfit);
    }
    let station = fields(input);
    if !is_version(station.version) {
        return Err(Refusal::Version);
    }
    let length = pair_at(input, 0);
    if length != follows(station.version) {
        return Err(Refusal::Unfit);
    }
    if input.len() != 2 + usize::from(length) {
        return Err(Refusal::Unfit);
    }
    if station.out_of_range() {
        return Err(Refusal::Unfit);
    }
    Ok(station)
}

// Each field where it stands, 0 where the input ends before it.
fn fields(input: &[u8]) -> Station
    ensures { result ≡ fields_of input.now }
{
    Station {
        version: byte_at(input, 2),
        number: byte_at(input, 3) * 256 + byte_at(input, 4),
        run: byte_at(input, 5),
        rules: byte_at(input, 6),
        first: Page(byte_at(input, 7)),
        last: Page(last_of(input)),
    }
}

// A record of version 1 has none, and reads as the board's last.
fn last_of(input: &[u8]) -> u32
    ensures { result ≡ last_of input.now }
{
    if byte_at(input, 2) == 1 {
        return LAST_PAGE;
    }
    byte_at(input, 8)
}

// The byte at a place, or 0 where there is none.
fn byte_at(bytes: &[u8], at: usize) -> u32
    ensures byte { result ≡ get_or bytes.now at 0 }
    ensures most { result < 256 }
{
    u32::from(bytes.get(at).copied().unwrap_or(0))
}

/// Writes the station's record at the buffer's start, and gives its length, 8 bytes or 9. 20 for a buffer too short
/// for that, 62 for an unknown version, 63 for a field out of range: then the buffer stays as it was.
#[tactic(auto, unfolding(basis::specs::Refusals::first, crate::specs::Station::write_of), using(crate::proofs::Fields::records))]
pub fn write(station: Station, buffer: &mut [u8]) -> Result<usize, Refusal>
    ensures answer { paper_answer result ≡ counted (write_of (length buffer.old) station) }
    ensures bytes { buffer.new ≡ overlay (written (write_of (length buffer.old) station)) buffer.old }
{
    let version = written_version(station);
    let right = follows(version);
    let size = 2 + usize::from(right);
    if buffer.len() < size {
        return Err(Refusal::Size);
    }
    if !is_version(station.version) {
        return Err(Refusal::Version);
    }
    if station.out_of_range() {
        return Err(Refusal::Unfit);
    }
    let [high, low] = (station.number as u16).to_be_bytes();
    // All that a record can have; one of version 1 has no last page.
    let bytes = [
        0,
        right as u8,
        version as u8,
        high,
        low,
        station.run as u8,
        station.rules as u8,
        station.first.0 as u8,
        station.last.0 as u8,
    ];
    put(buffer, &bytes[..size]);
    Ok(size)
}

// A station of version 1 stays one while its last page is the one that such a record reads as.
fn written_version(station: Station) -> u32
    ensures version { result ≡ written_version station }
    ensures most { result ≤ 2 }
{
    if station.version == 1 && station.last.0 == LAST_PAGE {
        return 1;
    }
    2
}
