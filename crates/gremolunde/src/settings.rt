// Station settings for C: records, and the table of 64 places.
ghost use Rattle.std.specs.Prelude.{◌≡◌, length};
ghost use Rattle.basis.specs.Lists.{overlay};
ghost use Rattle.basis.specs.Refusals.{bare, counted, written};
ghost use Rattle.gremolunde.specs.Answers.{length_answer, no_station, station_answer, stored_answer, condition_of, place_answer, done_answer};
ghost use Rattle.gremolunde.specs.States.{station_meant};
ghost use Rattle.stations.specs.Paper.{paper_answer};
ghost use Rattle.stations.specs.Station.{read_of, write_of};
ghost use Rattle.stations.specs.Table.{look_of, list_of, find_of, store_of, after_store, delete_of, free_of, empty_of, table_after};

use crate::answers::{Length, length_answer};
use crate::states::{StationState, station_meant, station_shown};
use basis::numbered::Numbered;
use stations::record::{read, write};
use stations::station::{Refusal, Station};
use stations::table::{Standing, delete, empty, find, free, list, look, store};

/// A station; all 0 where it is refused.
#[repr(C)]
#[derive(Clone, Copy)]
pub struct StationAnswer {
    pub number: u32,
    pub station: StationState,
}

/// The place, 0 to 63, where a record was stored; 0 where it is refused.
#[repr(C)]
#[derive(Clone, Copy)]
pub struct StationStored {
    pub number: u32,
    pub place: u32,
}

/// What is at a place: `condition` is 0 free, 1 a station, 2 damaged; 0 where it is refused.
#[repr(C)]
#[derive(Clone, Copy)]
pub struct StationPlace {
    pub number: u32,
    pub condition: u32,
}

/// Whether it was done: 0, or the refusal's number.
#[repr(C)]
#[derive(Clone, Copy)]
pub struct Finished {
    pub number: u32,
}

/// The station that a record tells. 63 for what is no record, or has a field out of range; 62 for another version.
#[unsafe(no_mangle)]
pub extern "C" fn gremolunde_station_read(input: &[u8]) -> StationAnswer
    ensures { result ≡ station_answer (read_of input.now) }
{
    station_answer(read(input))
}

fn station_answer(answer: Result<Station, Refusal>) -> StationAnswer
    ensures { result ≡ station_answer (paper_answer answer) }
{
    match answer {
        Ok(told) => StationAnswer {
            number: 0,
            station: station_shown(told),
        },
        Err(why) => StationAnswer {
            number: why.number(),
            station: no_station(),
        },
    }
}

// What a refusal hands back.
fn no_station() -> StationState
    ensures { result ≡ no_station }
{
    StationState::default()
}

/// Writes the station's record at the buffer's start, and gives its length, 8 bytes or 9. 20 for a buffer too short
/// for that, 62 for an unknown version, 63 for a field out of range: then the buffer stays as it was.
#[unsafe(no_mangle)]
pub extern "C" fn gremolunde_station_write(station: StationState, buffer: &mut [u8]) -> Length
    ensures answer { let b = write_of (length buffer.old) (station_meant station) in
        result ≡ length_answer (counted b) }
    ensures bytes { let b = write_of (length buffer.old) (station_meant station) in
        buffer.new ≡ overlay (written b) buffer.old }
{
    length_answer(write(station_meant(station), buffer))
}

/// Makes all 64 places free. 20 for bytes that are not 1,024: they stay as they were.
#[unsafe(no_mangle)]
pub extern "C" fn gremolunde_stations_empty(table: &mut [u8]) -> Finished
    ensures answer { result ≡ done_answer (bare (empty_of table.old)) }
    ensures table { table.new ≡ table_after table.old (empty_of table.old) }
{
    done_answer(empty(table))
}

/// The station that holds a number. 60 where no place has it, and for a table of another size.
#[unsafe(no_mangle)]
pub extern "C" fn gremolunde_stations_find(table: &[u8], station: u32) -> StationAnswer
    ensures { result ≡ station_answer (find_of table.now station) }
{
    station_answer(find(table, station))
}

/// The station at a place, 0 to 63. 60 where none is, for a place past the last, and for a table of another size.
#[unsafe(no_mangle)]
pub extern "C" fn gremolunde_stations_list(table: &[u8], place: u32) -> StationAnswer
    ensures { result ≡ station_answer (list_of table.now place) }
{
    station_answer(list(table, place))
}

/// What is at a place, 0 to 63. 60 for a place past the last, and for a table of another size.
#[unsafe(no_mangle)]
pub extern "C" fn gremolunde_stations_place(table: &[u8], place: u32) -> StationPlace
    ensures { result ≡ place_answer (look_of table.now place) }
{
    place_answer(look(table, place))
}

// C has a struct of its own for each answer, so one helper for this and `station_answer` would hand a number and a
// value to both, and be no plainer.
fn place_answer(answer: Result<Standing, Refusal>) -> StationPlace
    ensures { result ≡ place_answer (paper_answer answer) }
{
    match answer {
        Ok(standing) => StationPlace {
            number: 0,
            condition: condition_of(standing),
        },
        Err(why) => StationPlace {
            number: why.number(),
            condition: 0,
        },
    }
}

// The numbers that C has for the three.
fn condition_of(standing: Standing) -> u32
    ensures { result ≡ condition_of standing }
{
    match standing {
        Standing::Free => 0,
        Standing::Station(_) => 1,
        Standing::Damaged => 2,
    }
}

/// Stores a record as it came, and gives its place: it replaces that of its number, or goes to the lowest free place.
/// 20 for a table of another size, 62 and 63 as for reading, 61 where no place is free: the table stays as it was.
#[unsafe(no_mangle)]
pub extern "C" fn gremolunde_stations_store(table: &mut [u8], input: &[u8]) -> StationStored
    ensures answer { result ≡ stored_answer (store_of table.old input.now) }
    ensures table { table.new ≡ after_store table.old input.now (store_of table.old input.now) }
{
    stored_answer(store(table, input))
}

fn stored_answer(answer: Result<u32, Refusal>) -> StationStored
    ensures { result ≡ stored_answer (paper_answer answer) }
{
    match answer {
        Ok(place) => StationStored { number: 0, place },
        Err(why) => StationStored {
            number: why.number(),
            place: 0,
        },
    }
}

/// Frees every place that has a station of the number. 60 where none has it, and for a table of another size: the
/// table stays as it was.
#[unsafe(no_mangle)]
pub extern "C" fn gremolunde_stations_delete(table: &mut [u8], station: u32) -> Finished
    ensures answer { result ≡ done_answer (bare (delete_of table.old station)) }
    ensures table { table.new ≡ table_after table.old (delete_of table.old station) }
{
    done_answer(delete(table, station))
}

/// Frees a place, 0 to 63, that has a station, or is damaged. 60 for one that is free, for a place past the last, and
/// for a table of another size: the table stays as it was.
#[unsafe(no_mangle)]
pub extern "C" fn gremolunde_stations_free(table: &mut [u8], place: u32) -> Finished
    ensures answer { result ≡ done_answer (bare (free_of table.old place)) }
    ensures table { table.new ≡ table_after table.old (free_of table.old place) }
{
    done_answer(free(table, place))
}

fn done_answer(answer: Result<(), Refusal>) -> Finished
    ensures { result ≡ done_answer (paper_answer answer) }
{
    match answer {
        Ok(()) => Finished { number: 0 },
        Err(why) => Finished {
            number: why.number(),
        },
    }
}
