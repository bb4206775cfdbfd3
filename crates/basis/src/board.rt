// The boards: pages and groups, a map of one bit a byte, what a packet carries, how each greets and is logged.
ghost use Rattle.std.specs.Prelude.{◌≡◌, ◌+◌, ◌<◌, ◌≤◌};
ghost use Rattle.basis.specs.Board.{pages_of, pages_most, board_of, greeting_of, version_of, count_bytes, log_length, board_logged};
ghost use Rattle.basis.specs.Units.{start_of, map_bytes, right_sizes_in};

use crate::units::Address;

/// How many bytes a page has.
pub const PAGE: u32 = 512;

/// How many pages a group has.
pub const GROUP_PAGES: u32 = 4;

/// How many bytes a group has.
pub const GROUP: u32 = GROUP_PAGES * PAGE;

/// How many pages the short board has.
pub const SHORT_PAGES: u32 = 124;

const LONG_PAGES: u32 = 248;

/// A packet carries at most this many bytes of a file, and so a piece has no more.
pub const DATA: usize = 250;

/// The byte that opens the board.
pub const OPENING: u8 = 0x08;

/// What the loader answers to a packet that it accepts.
pub const ACK: u8 = 0x06;

/// What the loader answers to a packet that it refuses.
pub const BEL: u8 = 0x07;

/// How many bytes the greeting has; no answer is longer.
pub const ANSWER: usize = 24;

const SHORT_GREETING: [u8; ANSWER] = *b"ADuC702x   -62 I31    \n\r";

const LONG_GREETING: [u8; ANSWER] = *b"ADuC702x   -124I31    \n\r";

/// The two boards.
// Which one is told at run time, by a number of pages or a log record's length: so an enum, and no type parameter.
#[derive(Clone, Copy, Debug, PartialEq, Eq)]
pub enum Board {
    Short,
    Long,
}

impl Board {
    /// The board of so many pages, 124 or 248; where there is no such board, none.
    // No `TryFrom`: which number refuses that, 65 or another, is told by who asks.
    pub fn of(pages: u32) -> Option<Board>
        ensures { result ≡ board_of pages }
    {
        match pages {
            124 => Some(Board::Short),
            248 => Some(Board::Long),
            _ => None,
        }
    }

    /// How many pages flash has: 124 or 248.
    pub fn pages(self) -> u32
        ensures pages { result ≡ pages_of self }
        ensures some { 0 < result }
        ensures most { result ≤ pages_most }
    {
        match self {
            Board::Short => SHORT_PAGES,
            Board::Long => LONG_PAGES,
        }
    }

    /// The first address past flash: 0xF800 or 0x1F000.
    pub fn end(self) -> Address
        ensures end { result.0 ≡ start_of (pages_of self) }
        ensures some { 0 < result.0 }
        ensures most { result.0 ≤ start_of pages_most }
    {
        Address(self.pages() * PAGE)
    }

    /// How many bytes flash and its image have.
    pub fn size(self) -> usize
        ensures size { result ≡ start_of (pages_of self) }
        ensures some { 0 < result }
        ensures most { result ≤ start_of pages_most }
    {
        self.end().0 as usize
    }

    /// How many bytes the map of one bit an address has.
    pub fn map(self) -> usize
        ensures size { result ≡ map_bytes (pages_of self) }
        ensures some { 0 < result }
        ensures most { result ≤ map_bytes pages_most }
    {
        self.size() / 8
    }

    /// The 24 bytes that it greets with.
    pub fn greeting(self) -> [u8; ANSWER]
        ensures { result ≡ greeting_of (pages_of self) }
    {
        match self {
            Board::Short => SHORT_GREETING,
            Board::Long => LONG_GREETING,
        }
    }

    /// Whether an image of so many bytes is as long as the board, and a map of so many has one bit an address.
    pub fn right_sizes(self, image: usize, map: usize) -> bool
        ensures { result ≡ right_sizes_in (start_of (pages_of self)) image map }
    {
        let size = self.size();
        image == size && map == size / 8
    }

    /// The version of its service log: 1 or 2.
    pub fn log_version(self) -> u8
        ensures { result ≡ version_of self }
    {
        match self {
            Board::Short => 1,
            Board::Long => 2,
        }
    }

    /// How many bytes each count of its log record has: 2 or 4.
    pub fn count_bytes(self) -> usize
        ensures bytes { result ≡ count_bytes self }
        ensures least { 2 ≤ result }
        ensures most { result ≤ 4 }
    {
        match self {
            Board::Short => 2,
            Board::Long => 4,
        }
    }

    /// What the length field of its log record says: 8 or 14, a version, an outcome and three counts.
    pub fn log_length(self) -> usize
        ensures length { result ≡ log_length self }
        ensures least { 8 ≤ result }
        ensures most { result ≤ 14 }
    {
        2 + 3 * self.count_bytes()
    }

    /// The board that a log record's length field tells, 8 or 14; where no board has such records, none.
    pub fn logged(length: u16) -> Option<Board>
        ensures { result ≡ board_logged length }
    {
        match length {
            8 => Some(Board::Short),
            14 => Some(Board::Long),
            _ => None,
        }
    }
}
