// The hex reader: record by record into a lent image and a lent map of the places named.
// Image and map stay two `&mut` parameters: a struct of both would have to say in each function that it gives back
// the same two, a clause for each that it saves.
ghost use Rattle.std.specs.Prelude.{◌≡◌, ℕ, ◌+◌, ◌*◌, ◌^◌, ◌<◌, ◌≤◌, true, false, List, length, drop, is_ok, IfErr, ◌≢◌};
ghost use Rattle.basis.specs.Lists.{copy_of};
ghost use Rattle.basis.specs.Refusals.{given};
ghost use Rattle.basis.specs.Board.{pages_of, pages_most};
ghost use Rattle.basis.specs.Units.{start_of};
ghost use Rattle.runs.specs.Map.{name_all_of};
ghost use Rattle.image.specs.Digits.{decoded};
ghost use Rattle.image.specs.Record.{count, kind, shape_of, pointed, no_line};
ghost use Rattle.image.specs.Paper.{paper_read, Reads};
ghost use Rattle.image.specs.declared.record.Refusal.TheVariants.{Twice};
ghost use Rattle.image.specs.Hex.{is_rule_set, start_in, record_in, apply_in, data_in, base_of, row_of, Puts, other_of, close_of};

use crate::record::{Blame, Kind, LONGEST, Refusal, characters, framing, shape};
use basis::board::Board;
use basis::buffers::{copy, pair_at};
use basis::units::Address;
use runs::places::{any_named, name_all};

/// The rule set by which both bases are added.
pub const RULES_1: u32 = 1;

/// The rule set by which the latest of 02 and 04 governs alone.
pub const RULES_2: u32 = 2;

// Under 02 the second wraps an offset inside so many bytes.
const SEGMENT: usize = 65536;

// No line that passes 23 has more bytes.
const MOST: usize = LONGEST / 2;

/// The reader between two records. A base fits 32 bits, so no sum of the two, an address and a count wraps in 64.
#[derive(Clone, Copy, Debug, PartialEq, Eq)]
pub struct Hex {
    /// The rule set, by its number. C needs a number: it may hand in any, and 34 answers it in its place.
    pub rules: u32,
    /// The linear base, which 04 sets.
    pub linear: u32,
    /// The segment base, which 02 sets.
    pub segment: u32,
    /// Whether the latest of 02 and 04 was 02.
    // No enum with the base in it: rule set 1 adds both bases, and C holds both.
    pub segmented: bool,
    /// Whether the end record came.
    pub ended: bool,
    /// Whether a data byte was taken.
    pub taken: bool,
}

// Bytes that stand in a row, from a place on.
#[derive(Clone, Copy)]
struct Row<'a> {
    from: Address,
    bytes: &'a [u8],
}

impl Hex {
    /// A reader at the start of a file: the image filled with 0xFF, the map with 0. 20, then 34, which change
    /// neither.
    #[tactic(auto, unfolding(basis::specs::Refusals::first, crate::specs::Hex::start_in, crate::specs::Record::column_of))]
    pub fn start(board: Board, rules: u32, image: &mut [u8], map: &mut [u8]) -> Result<Hex, Blame>
        ensures { let i = image.old in
            let m = map.old in
            Reads result image.new map.new
            (pointed no_line (start_in (start_of (pages_of board)) rules i m)) i m }
    {
        if !board.right_sizes(image.len(), map.len()) {
            return Err(Refusal::Size.into());
        }
        if !is_rule_set(rules) {
            return Err(Refusal::Rules.into());
        }
        image.fill(0xFF);
        map.fill(0);
        Ok(Hex {
            rules,
            linear: 0,
            segment: 0,
            segmented: false,
            ended: false,
            taken: false,
        })
    }

    /// One record, its line end removed: 20, 34, 21, then 22 to 30. A refusal leaves image, map and reader as they
    /// stood.
    #[tactic(auto, unfolding(basis::specs::Refusals::first, crate::specs::Hex::record_in, crate::specs::Record::column_of))]
    pub fn record(
        self,
        board: Board,
        line: &[u8],
        image: &mut [u8],
        map: &mut [u8],
    ) -> Result<Hex, Blame>
        ensures { let l = line.now in
            let i = image.old in
            let m = map.old in
            Reads result image.new map.new
            (pointed l (record_in (start_of (pages_of board)) self l i m)) i m }
    {
        if !board.right_sizes(image.len(), map.len()) {
            return Err(Refusal::Size.into());
        }
        if !is_rule_set(self.rules) {
            return Err(Refusal::Rules.into());
        }
        if self.ended {
            return Err(Refusal::Ended.into());
        }
        let mut bytes = [0u8; MOST];
        self.take(line, &mut bytes, image, map)
    }

    // 22 to 30 and what the record does, with room for its bytes.
    fn take(
        self,
        line: &[u8],
        bytes: &mut [u8],
        image: &mut [u8],
        map: &mut [u8],
    ) -> Result<Hex, Blame>
        requires room { length bytes.old ≡ 260 }
        requires map { length image.old ≡ 8 * length map.old }
        requires most { length image.old ≤ start_of pages_most }
        requires known { is_rule_set self.rules ≡ true }
        requires going { self.ended ≡ false }
        ensures { let l = line.now in
            let i = image.old in
            let m = map.old in
            Reads result image.new map.new (pointed l (record_in (length i) self l i m)) i m }
    {
        characters(line, bytes)?;
        self.apply(line, &bytes[..line.len() / 2], image, map)
    }

    // 25 to 30 and what the record does, of a line and its bytes.
    fn apply(
        self,
        line: &[u8],
        bytes: &[u8],
        image: &mut [u8],
        map: &mut [u8],
    ) -> Result<Hex, Blame>
        requires spelt { bytes.now ≡ decoded (drop 1 line.now) }
        requires whole { length line.now ≡ 2 * length bytes.now + 1 }
        requires least { 5 ≤ length bytes.now }
        requires map { length image.old ≡ 8 * length map.old }
        requires most { length image.old ≤ start_of pages_most }
        ensures { let l = line.now in
            let i = image.old in
            let m = map.old in
            Reads result image.new map.new
            (pointed l (apply_in (length i) self (length l) bytes.now i m)) i m }
    {
        framing(line, bytes)?;
        shape(bytes)?;
        match Kind::of(bytes[3]) {
            Some(Kind::Data) => self.data(bytes, image, map),
            _ => Ok(self.other(bytes)),
        }
    }

    // 29 and 30, and the data bytes into image and map, of whatever line.
    fn data(self, bytes: &[u8], image: &mut [u8], map: &mut [u8]) -> Result<Hex, Blame>
        requires whole { length bytes.now ≡ 5 + count bytes.now }
        requires map { length image.old ≡ 8 * length map.old }
        requires most { length image.old ≤ start_of pages_most }
        ensures { let i = image.old in
            let m = map.old in
            (line : List ℕ) → Reads result image.new map.new
            (pointed line (data_in (length i) self bytes.now i m)) i m }
    {
        let count = usize::from(bytes[0]);
        if count == 0 {
            return Ok(self);
        }
        let offset = pair_at(bytes, 1);
        let base = self.base();
        let place = base + u64::from(offset);
        let row = self.row(offset, count);
        // Where the first row fits the board so does the second, which lies below it.
        if (image.len() as u64) < place + row as u64 {
            return Err(Refusal::Place.into());
        }
        let first = Row {
            from: Address(place as u32),
            bytes: &bytes[4..4 + row],
        };
        let rest = Row {
            from: Address(base as u32),
            bytes: &bytes[4 + row..4 + count],
        };
        put(image, map, first, rest)?;
        Ok(Hex {
            taken: true,
            ..self
        })
    }

    // What AAAA is added to.
    fn base(self) -> u64
        ensures base { result ≡ base_of self }
        ensures below { result < 2 ^ 33 }
    {
        if self.rules == RULES_1 {
            return u64::from(self.linear) + u64::from(self.segment);
        }
        if self.segmented {
            return u64::from(self.segment);
        }
        u64::from(self.linear)
    }

    // How many of `count` bytes from the offset on stand in a row: all, or those before a segment's end where it wraps.
    fn row(self, offset: u16, count: usize) -> usize
        ensures row { result ≡ row_of self offset count }
        ensures most { result ≤ count }
    {
        if self.rules == RULES_1 || !self.segmented {
            return count;
        }
        count.min(SEGMENT - usize::from(offset))
    }

    // The reader after a record that is no data.
    fn other(self, bytes: &[u8]) -> Hex
        requires whole { length bytes.now ≡ 5 + count bytes.now }
        requires shape { shape_of bytes.now ≡ given tt }
        requires kind { kind bytes.now ≢ 0 }
        ensures { result ≡ other_of self bytes.now }
    {
        match Kind::of(bytes[3]) {
            Some(Kind::End) => Hex {
                ended: true,
                ..self
            },
            Some(Kind::Segment) => Hex {
                segment: 16 * u32::from(pair_at(bytes, 4)),
                segmented: true,
                ..self
            },
            Some(Kind::Linear) => Hex {
                linear: 65536 * u32::from(pair_at(bytes, 4)),
                segmented: false,
                ..self
            },
            _ => self,
        }
    }

    /// The end of the file: 34, 31 and 32. Gives the reader back as it stood.
    #[tactic(auto, unfolding(basis::specs::Refusals::first, crate::specs::Hex::close_of, crate::specs::Record::column_of))]
    pub fn close(self) -> Result<Hex, Blame>
        ensures { paper_read result ≡ pointed no_line (close_of self) }
    {
        if !is_rule_set(self.rules) {
            return Err(Refusal::Rules.into());
        }
        if !self.ended {
            return Err(Refusal::NoEnd.into());
        }
        if !self.taken {
            return Err(Refusal::NoData.into());
        }
        Ok(self)
    }
}

/// Whether a rule set has this number.
pub fn is_rule_set(rules: u32) -> bool
    ensures { result ≡ is_rule_set rules }
{
    matches!(rules, RULES_1 | RULES_2)
}

// Two rows into image and map; 30, and nothing, where one of the places is named.
fn put(image: &mut [u8], map: &mut [u8], first: Row<'_>, rest: Row<'_>) -> Result<(), Refusal>
    requires first { first.from.0 + length first.bytes.now ≤ length image.old }
    requires rest { rest.from.0 + length rest.bytes.now ≤ length image.old }
    requires map { length image.old ≡ 8 * length map.old }
    requires most { length image.old ≤ start_of pages_most }
    ensures rows { Puts image.old map.old first.entry.from.0 first.entry.bytes.now rest.entry.from.0
        rest.entry.bytes.now (is_ok result) image.new map.new }
    ensures why { IfErr result (λ why. why ≡ Twice) }
{
    let named = any_named(map, first.from, first.bytes.len() as u32);
    if named || any_named(map, rest.from, rest.bytes.len() as u32) {
        return Err(Refusal::Twice);
    }
    lay(image, map, first);
    lay(image, map, rest);
    Ok(())
}

// A row of bytes into image and map.
fn lay(image: &mut [u8], map: &mut [u8], row: Row<'_>)
    requires row { row.from.0 + length row.bytes.now ≤ length image.old }
    requires map { length image.old ≡ 8 * length map.old }
    requires most { length image.old ≤ start_of pages_most }
    ensures image { image.new ≡ copy_of image.old row.entry.from.0 row.entry.bytes.now }
    ensures map { map.new ≡ name_all_of map.old row.entry.from.0 (length row.entry.bytes.now) }
{
    copy(image, row.from.0 as usize, row.bytes);
    name_all(map, row.from, row.bytes.len() as u32);
}
