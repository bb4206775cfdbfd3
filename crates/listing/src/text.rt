// Hex text, byte by byte: each line is a record, and how the text is cut into reads does not matter.
ghost use Rattle.std.specs.Prelude.{◌≡◌, ◌≢◌, ◌≤◌, ◌++◌, ◌∷◌, length, slice_set, All, IfSome, IfNone};
ghost use Rattle.basis.specs.Board.{pages_of};
ghost use Rattle.basis.specs.Units.{start_of};
ghost use Rattle.image.specs.Hex.{settled, start_in};
ghost use Rattle.image.specs.Paper.{paper_read};
ghost use Rattle.image.specs.Record.{pointed, no_line};
ghost use Rattle.listing.specs.Text.{going, at_line, line_room};
ghost use Rattle.listing.specs.Feed.{state, text_at, after_line, column_in, fed_line, one_more, ended_length, feed_in, KeepsAll, last_in, shut_of, close_in};
ghost use Rattle.listing.specs.Paper.{paper_reading};

use basis::board::Board;
use basis::buffers::first;
use image::hex::{Hex, RULES_1};
use image::record::{self, LONGEST, Refusal};

/// How much of a line is kept: the longest record, and one more to tell a longer line.
pub const LINE: usize = LONGEST + 1;

/// The reader, the lines that it has taken, and of the open line its length, kept or not, and its last byte.
// The open line's bytes are lent beside it: this crate has no heap.
#[derive(Clone, Copy, Debug, PartialEq, Eq)]
pub struct Text {
    pub hex: Hex,
    pub lines: u64,
    pub len: usize,
    pub last: u8,
}

/// A refusal with its line, counted from 1, and its column, counted from 0; line 0 where no line is to blame.
// 0 and no `Option`: 0 is what is printed.
#[derive(Clone, Copy, Debug, PartialEq, Eq)]
pub struct Blame {
    pub line: u64,
    pub refusal: Refusal,
    pub column: usize,
}

/// A text at its start, with image and map as the hex reader starts them under rule set 1.
pub fn start(board: Board, image: &mut [u8], map: &mut [u8]) -> Result<Text, Blame>
    ensures { let i = image.old in
        let m = map.old in
        let o = settled (pointed no_line (start_in (start_of (pages_of board)) 1 i m)) i m in
        (paper_reading result ≡ after_line 0 o.answer) × (image.new ≡ o.image)
        × (map.new ≡ o.map) }
{
    let hex = blamed(0, Hex::start(board, RULES_1, image, map))?;
    Ok(Text::after(hex, 0))
}

/// The next bytes of the text, as many as came. After a refusal they count for nothing.
// Line, image and map stay three `&mut`, as in the hex reader.
#[tactic(auto, using(crate::proofs::Texts::feeds))]
pub fn feed(
    reading: Result<Text, Blame>,
    board: Board,
    bytes: &[u8],
    line: &mut [u8; LINE],
    image: &mut [u8],
    map: &mut [u8],
) -> Result<Text, Blame>
    ensures { state (paper_reading result) line.new image.new map.new
        ≡ feed_in (start_of (pages_of board))
        (state (paper_reading reading) line.old image.old map.old)
        bytes.now }
{
    let mut text = reading?;
    let mut rest = bytes;
    // No `for`: what stands behind the last 0A is kept after the loop.
    while let Some((front, others)) = split_line(rest) {
        text = text.keep(front, line);
        text = text.take(board, text.ended(), line, image, map)?;
        rest = others;
    }
    Ok(text.keep(rest, line))
}

/// The text has ended: what stands after the last 0A is a line as it stands, and the reader is closed: 31 and 32,
/// which no line is to blame for.
#[tactic(auto, unfolding(crate::specs::Feed::shut_of))]
pub fn close(
    reading: Result<Text, Blame>,
    board: Board,
    line: &[u8; LINE],
    image: &mut [u8],
    map: &mut [u8],
) -> Result<Text, Blame>
    ensures { state (paper_reading result) line.now image.new map.new
        ≡ close_in (start_of (pages_of board))
        (state (paper_reading reading) line.now image.old map.old) }
{
    reading?.last(board, line, image, map)?.shut()
}

impl Text {
    // So many lines are taken, and none is open.
    fn after(hex: Hex, lines: u64) -> Text
        ensures { result ≡ text_at lines hex }
    {
        Text {
            hex,
            lines,
            len: 0,
            last: 0,
        }
    }

    // Bytes of the open line are gone through at once, since a byte at a time carries the whole state along. In a
    // shorter buffer the start of a longer line could pass for a record.
    fn keep(self, bytes: &[u8], line: &mut [u8]) -> Text
        requires open { All (λ b. b ≢ 0x0A) bytes.now }
        requires room { line_room ≤ length line.old }
        ensures { KeepsAll self line.old bytes.now result line.new }
    {
        let mut len = self.len;
        let mut last = self.last;
        for b in bytes {
            len = keep_one(line, len, *b);
            last = *b;
        }
        Text { len, last, ..self }
    }

    // The open line's length without the one 0D that may stand before its 0A.
    #[tactic(auto, unfolding(crate::specs::Feed::ended_length))]
    fn ended(self) -> usize
        ensures { result ≡ ended_length self }
    {
        if self.last == 0x0D {
            return self.len.saturating_sub(1);
        }
        self.len
    }

    // What stands after the last 0A; nothing is no line.
    #[tactic(auto, unfolding(crate::specs::Feed::last_in))]
    fn last(
        self,
        board: Board,
        line: &[u8],
        image: &mut [u8],
        map: &mut [u8],
    ) -> Result<Text, Blame>
        ensures { state (paper_reading result) line.now image.new map.new
            ≡ last_in (start_of (pages_of board)) self line.now image.old
            map.old }
    {
        if self.len == 0 {
            return Ok(self);
        }
        self.take(board, self.len, line, image, map)
    }

    // One line of `n` bytes, as many of them as are kept: the next record.
    fn take(
        self,
        board: Board,
        n: usize,
        line: &[u8],
        image: &mut [u8],
        map: &mut [u8],
    ) -> Result<Text, Blame>
        ensures { state (paper_reading result) line.now image.new map.new
            ≡ fed_line (start_of (pages_of board)) self n line.now image.old
            map.old }
    {
        // No text has 2^64 lines.
        let lines = self.lines.wrapping_add(1);
        let kept = first(line, n);
        match blamed(lines, self.hex.record(board, kept, image, map)) {
            Ok(hex) => Ok(Text::after(hex, lines)),
            Err(blame) => Err(Blame {
                column: column_in(n, kept.len(), blame.column),
                ..blame
            }),
        }
    }

    #[tactic(auto, using(crate::proofs::Texts::shuts), unfolding(crate::specs::Feed::shut_of))]
    fn shut(self) -> Result<Text, Blame>
        ensures { paper_reading result ≡ shut_of (going self) }
    {
        blamed(0, self.hex.close())?;
        Ok(self)
    }
}

// What the hex reader answered to a line.
fn blamed(line: u64, read: Result<Hex, record::Blame>) -> Result<Hex, Blame>
    ensures { paper_reading result ≡ at_line line (λ h. h) (paper_read read) }
{
    read.map_err(|why| Blame {
        line,
        refusal: why.refusal,
        column: why.column,
    })
}

// What stands before the next 0A, and what behind it.
fn split_line(bytes: &[u8]) -> Option<(&[u8], &[u8])>
    ensures cut { IfSome result (λ x. bytes.now ≡ x.0.now ++ (0x0A ∷ x.1.now)) }
    ensures open { IfSome result (λ x. All (λ b. b ≢ 0x0A) x.0.now) }
    ensures none { IfNone result (All (λ b. b ≢ 0x0A) bytes.now) }
{
    let end = bytes.iter().position(|b| *b == 0x0A)?;
    Some((&bytes[..end], &bytes[end + 1..]))
}

// One byte more of a line that has `n`, kept where there is room; how long the line is then. A longer line than
// 64 bits count must not pass for a short one.
#[tactic(auto, unfolding(crate::specs::Feed::one_more))]
fn keep_one(line: &mut [u8], n: usize, b: u8) -> usize
    ensures len { result ≡ one_more n }
    ensures line { line.new ≡ slice_set line.old n b }
{
    if n < line.len() {
        line[n] = b;
    }
    n.saturating_add(1)
}

// The reader sees no more of a line than is kept: where that ends for it, the whole line ends.
fn column_in(n: usize, kept: usize, column: usize) -> usize
    ensures { result ≡ column_in n kept column }
{
    if column == kept {
        return n;
    }
    column
}
