// The table: 64 places in lent bytes, each with a record at its start and 0 behind it, or free, or damaged.
ghost use Rattle.std.specs.Prelude.{◌≡◌, ◌<◌, length};
ghost use Rattle.basis.specs.Refusals.{bare};
ghost use Rattle.stations.specs.Paper.{paper_answer};
ghost use Rattle.stations.specs.Table.{places, place_size, blank, standing_of, standing_at, suits, lowest_of, IsPlace, look_of, list_of, find_of, freed_at, place_for, store_of, after_store, freed_from, delete_of, free_of, empty_of, table_after};

use crate::record::read;
use crate::station::{Refusal, Station};
use basis::buffers::{copy, fill, first, pair_at};

const PLACES: u32 = 64;

const PLACE: usize = 16;

const TABLE: usize = 1024;

/// What is at a place.
#[derive(Clone, Copy, Debug, PartialEq, Eq)]
pub enum Standing {
    /// Every byte is 0.
    Free,
    /// A record, and 0 behind it.
    Station(Station),
    /// Anything else, as a record of a later version.
    Damaged,
}

// What a place is sought for. No `Option`: `None` would not say that a free place is sought, and the laws of storing
// and of deleting name both cases.
#[derive(Clone, Copy, Debug, PartialEq, Eq)]
enum Sought {
    Free,
    Number(u32),
}

/// Makes all 64 places free. 20 for bytes that are not 1,024: they stay as they were.
#[tactic(auto, using(crate::proofs::Turns::empties))]
pub fn empty(table: &mut [u8]) -> Result<(), Refusal>
    ensures answer { paper_answer result ≡ bare (empty_of table.old) }
    ensures table { table.new ≡ table_after table.old (empty_of table.old) }
{
    let Some(table) = table.as_mut_array::<TABLE>() else {
        return Err(Refusal::Size);
    };
    fill(table, 0, TABLE, 0);
    Ok(())
}

/// What is at a place, 0 to 63. 60 for a place past the last, and for a table of another size.
#[tactic(auto, unfolding(basis::specs::Refusals::first, crate::specs::Table::look_of))]
pub fn look(table: &[u8], place: u32) -> Result<Standing, Refusal>
    ensures { paper_answer result ≡ look_of table.now place }
{
    let table = table.as_array().ok_or(Refusal::Unknown)?;
    if PLACES <= place {
        return Err(Refusal::Unknown);
    }
    Ok(standing_at(table, place))
}

/// The station at a place. 60 where none is, and as for `look`.
pub fn list(table: &[u8], place: u32) -> Result<Station, Refusal>
    ensures { paper_answer result ≡ list_of table.now place }
{
    let Standing::Station(station) = look(table, place)? else {
        return Err(Refusal::Unknown);
    };
    Ok(station)
}

/// The station that holds a number: that of the lowest place with the number. 60 where no place has it, and for a
/// table of another size.
#[tactic(auto, unfolding(basis::specs::Refusals::first, crate::specs::Table::find_of, crate::specs::Table::look_of))]
pub fn find(table: &[u8], number: u32) -> Result<Station, Refusal>
    ensures { paper_answer result ≡ find_of table.now number }
{
    let table = table.as_array().ok_or(Refusal::Unknown)?;
    let place = lowest(table, Sought::Number(number)).ok_or(Refusal::Unknown)?;
    list(table, place)
}

/// Stores a record as it came, and gives its place: it replaces that of its number, or goes to the lowest free place.
/// 20 for a table of another size, 62 and 63 as for `read`, 61 where no place is free: the table stays as it was.
#[tactic(auto, using(crate::proofs::Turns::stores))]
pub fn store(table: &mut [u8], input: &[u8]) -> Result<u32, Refusal>
    ensures answer { paper_answer result ≡ store_of table.old input.now }
    ensures table { table.new ≡ after_store table.old input.now (store_of table.old input.now) }
{
    let Some(table) = table.as_mut_array() else {
        return Err(Refusal::Size);
    };
    let station = read(input)?;
    let Some(place) = place_for(table, station.number) else {
        return Err(Refusal::Full);
    };
    clear(table, place);
    copy(table, PLACE * place as usize, input);
    Ok(place)
}

/// Frees every place that has the number. 60 where none has it, and for a table of another size: the table stays as
/// it was.
#[tactic(auto, using(crate::proofs::Turns::deletes))]
pub fn delete(table: &mut [u8], number: u32) -> Result<(), Refusal>
    ensures answer { paper_answer result ≡ bare (delete_of table.old number) }
    ensures table { table.new ≡ table_after table.old (delete_of table.old number) }
{
    let Some(table) = table.as_mut_array() else {
        return Err(Refusal::Unknown);
    };
    let Some(_) = lowest(table, Sought::Number(number)) else {
        return Err(Refusal::Unknown);
    };
    free_each(table, number);
    Ok(())
}

/// Frees a place that has a station, or is damaged. 60 for one that is free, and as for `look`: the table stays as it
/// was.
#[tactic(auto, using(crate::proofs::Turns::clears))]
pub fn free(table: &mut [u8], place: u32) -> Result<(), Refusal>
    ensures answer { paper_answer result ≡ bare (free_of table.old place) }
    ensures table { table.new ≡ table_after table.old (free_of table.old place) }
{
    let Some(table) = table.as_mut_array() else {
        return Err(Refusal::Unknown);
    };
    if PLACES <= place {
        return Err(Refusal::Unknown);
    }
    if standing_at(table, place).suits(Sought::Free) {
        return Err(Refusal::Unknown);
    }
    clear(table, place);
    Ok(())
}

impl Standing {
    fn suits(self, sought: Sought) -> bool
        ensures { result ≡ suits sought self }
    {
        match sought {
            Sought::Free => self == Standing::Free,
            Sought::Number(number) => matches!(self, Standing::Station(s) if s.number == number),
        }
    }
}

fn standing_at(table: &[u8; TABLE], place: u32) -> Standing
    requires { place < places }
    ensures { result ≡ standing_at table.now place }
{
    let at = PLACE * place as usize;
    standing_of(&table[at..at + PLACE])
}

// A record is as long as its length field says.
#[tactic(auto, unfolding(crate::specs::Table::standing_of))]
fn standing_of(place: &[u8]) -> Standing
    requires { length place.now ≡ place_size }
    ensures { result ≡ standing_of place.now }
{
    if is_blank(place) {
        return Standing::Free;
    }
    let len = 2 + usize::from(pair_at(place, 0));
    if !is_blank(place.get(len..).unwrap_or(&[])) {
        return Standing::Damaged;
    }
    match read(first(place, len)) {
        Ok(station) => Standing::Station(station),
        Err(_) => Standing::Damaged,
    }
}

// Whether every byte is 0.
#[tactic(auto, using(crate::proofs::Turns::blanks))]
fn is_blank(bytes: &[u8]) -> bool
    ensures { result ≡ blank bytes.now }
{
    // A `for`: `blank` is a recursion, which `all` leaves open.
    for b in bytes {
        if *b != 0 {
            return false;
        }
    }
    true
}

// The lowest place that suits.
#[tactic(auto, using(runs::proofs::Turns::searches))]
fn lowest(table: &[u8; TABLE], sought: Sought) -> Option<u32>
    ensures { IsPlace (lowest_of table.now sought) result }
{
    for place in 0..PLACES {
        if standing_at(table, place).suits(sought) {
            return Some(place);
        }
    }
    None
}

// A number that is held keeps its place.
fn place_for(table: &[u8; TABLE], number: u32) -> Option<u32>
    ensures { IsPlace (place_for table.now number) result }
{
    if let Some(held) = lowest(table, Sought::Number(number)) {
        return Some(held);
    }
    lowest(table, Sought::Free)
}

#[tactic(auto, using(crate::proofs::Turns::frees))]
fn free_each(table: &mut [u8; TABLE], number: u32)
    ensures { table.new ≡ freed_from table.old number 0 places }
{
    for place in 0..PLACES {
        if standing_at(table, place).suits(Sought::Number(number)) {
            clear(table, place);
        }
    }
}

fn clear(table: &mut [u8; TABLE], place: u32)
    requires { place < places }
    ensures { table.new ≡ freed_at table.old place }
{
    fill(table, PLACE * place as usize, PLACE, 0);
}
