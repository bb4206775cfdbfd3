// The reader: what a record says, or why it is none.
ghost use Rattle.std.specs.Prelude.{◌≡◌, ◌≤◌};
ghost use Rattle.service_log.specs.Log.{record_size, record_least, record_most, read_on, read_of};
ghost use Rattle.service_log.specs.Paper.{paper_unread, paper_reading};

use crate::big::big_at;
use crate::truth::Counts;
use basis::board::Board;
use basis::buffers::pair_at;
use basis::numbered::Numbered;

/// No record has fewer bytes.
pub const LEAST: usize = 10;

/// None has more.
pub const MOST: usize = 16;

/// How many bytes a board's record has: two more than its length field says.
pub fn record_size(board: Board) -> usize
    ensures size { result ≡ record_size board }
    ensures least { record_least ≤ result }
    ensures most { result ≤ record_most }
{
    2 + board.log_length()
}

/// What a session came to: `acknowledged` of `total` packets, over a file of so many bytes.
// The fields stand by themselves, with no `Counts` in it: `read_on` names them.
#[derive(Clone, Copy, Debug, PartialEq, Eq)]
pub struct Record {
    pub version: u8,
    pub outcome: u8,
    pub acknowledged: u32,
    pub total: u32,
    pub bytes: u32,
}

/// Why an input is no record.
#[derive(Clone, Copy, Debug, PartialEq, Eq)]
pub enum Unread {
    /// It has under 10 bytes.
    Short = 50,
    /// Its length field is no board's, or it has not two bytes more than that says.
    Length = 51,
    /// Its version is not the length's.
    Version = 52,
    /// It is false.
    False = 53,
}

impl Numbered for Unread {
    ghost number_of = { paper_unread };

    /// The number in the paper's list.
    fn number(self) -> u32 {
        self as u32
    }
}

/// Reads a record, by the board that its length field tells: 50, 51, 52 or 53 where it is none, in this order.
#[tactic(auto, unfolding(basis::specs::Refusals::first, crate::specs::Log::read_of))]
pub fn read(input: &[u8]) -> Result<Record, Unread>
    ensures { paper_reading result ≡ read_of input.now }
{
    if input.len() < LEAST {
        return Err(Unread::Short);
    }
    let Some(board) = Board::logged(pair_at(input, 0)) else {
        return Err(Unread::Length);
    };
    read_on(board, input)
}

#[tactic(auto, unfolding(basis::specs::Refusals::first, crate::specs::Log::read_on))]
fn read_on(board: Board, input: &[u8]) -> Result<Record, Unread>
    ensures { paper_reading result ≡ read_on board input.now }
{
    if input.len() != record_size(board) {
        return Err(Unread::Length);
    }
    let version = input[2];
    if version != board.log_version() {
        return Err(Unread::Version);
    }
    let width = board.count_bytes();
    let counts = Counts {
        outcome: input[3],
        acknowledged: big_at(input, 4, width),
        total: big_at(input, 4 + width, width),
        bytes: big_at(input, 4 + 2 * width, width),
    };
    if counts.is_false(board) {
        return Err(Unread::False);
    }
    Ok(Record {
        version,
        outcome: counts.outcome,
        acknowledged: counts.acknowledged,
        total: counts.total,
        bytes: counts.bytes,
    })
}
