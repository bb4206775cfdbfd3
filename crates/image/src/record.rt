// A record by itself, judged in the order of the paper: its characters, its bytes, its type and shape.
// A refusal comes with its column, counted from 0.
ghost use Rattle.std.specs.Prelude.{◌≡◌, ℕ, ◌≤◌, List, length, drop, not, nat_lt, is_some, IfSome};
ghost use Rattle.basis.specs.Lists.{copy_of};
ghost use Rattle.image.specs.Paper.{paper_refusal, paper_kind, paper_check};
ghost use Rattle.image.specs.Digits.{decoded};
ghost use Rattle.image.specs.Record.{characters_of, decoded_bytes, framing_of, count_for, shape_of, pointed};

use crate::digits::decode;
use basis::buffers::pair_at;
use basis::numbered::Numbered;
use basis::sums::sum;

/// The characters of a record of no bytes; two more for each byte.
pub const SHORTEST: usize = 11;

/// The characters of a record of 255 bytes.
pub const LONGEST: usize = 521;

// Where the parts of a record begin.
const COLON: usize = 0;

const COUNT: usize = 1;

const ADDRESS: usize = 3;

const KIND: usize = 7;

/// Why the reader or the writer refuses, by the number of each.
#[derive(Clone, Copy, Debug, PartialEq, Eq)]
pub enum Refusal {
    /// Image or map is not as long as the board asks.
    Size = 20,
    /// A record behind the end record.
    Ended = 21,
    /// No colon, or an empty line.
    Colon = 22,
    /// Under 11 characters, over 521, or an even number.
    Length = 23,
    /// A character that is no digit.
    Digit = 24,
    /// The length is not that which the count asks for.
    Count = 25,
    /// The bytes don't sum to 0.
    Checksum = 26,
    /// A type above 05.
    Kind = 27,
    /// A count or an address that the type doesn't have.
    Shape = 28,
    /// A place past the board.
    Place = 29,
    /// A place that was named before.
    Twice = 30,
    /// Closed before an end record.
    NoEnd = 31,
    /// Closed before a data byte.
    NoData = 32,
    /// A buffer without room for a record.
    Short = 33,
    /// No rule set has this number.
    Rules = 34,
}

impl Numbered for Refusal {
    ghost number_of = { paper_refusal };

    /// The paper's number.
    fn number(self) -> u32 {
        self as u32
    }
}

/// A record's type, TT, by its number.
#[derive(Clone, Copy, Debug, PartialEq, Eq)]
pub enum Kind {
    /// Bytes for the image.
    Data = 0,
    /// The end of the file.
    End = 1,
    /// The segment base of what follows.
    Segment = 2,
    /// A start address, as segment and offset. It changes nothing.
    SegmentStart = 3,
    /// The linear base of what follows.
    Linear = 4,
    /// A start address, as one number. It changes nothing.
    LinearStart = 5,
}

impl Kind {
    /// The type of this number; none above 5.
    // No `TryFrom`: the refusal, 27, has its column from who asks.
    pub fn of(number: u8) -> Option<Kind>
        ensures known { is_some result ≡ not (nat_lt 5 number) }
        ensures kind { IfSome result (λ k. paper_kind k ≡ number) }
    {
        match number {
            0 => Some(Kind::Data),
            1 => Some(Kind::End),
            2 => Some(Kind::Segment),
            3 => Some(Kind::SegmentStart),
            4 => Some(Kind::Linear),
            5 => Some(Kind::LinearStart),
            _ => None,
        }
    }

    // BB of a record that is no data.
    fn count(self) -> u8
        ensures { result ≡ count_for (paper_kind self) }
    {
        match self {
            Kind::End => 0,
            Kind::SegmentStart | Kind::LinearStart => 4,
            _ => 2,
        }
    }
}

impl From<Kind> for u8 {
    ghost from_gives = { λ k n. n ≡ paper_kind k };

    /// TT of the type.
    fn from(kind: Kind) -> u8 {
        kind as u8
    }
}

/// A refusal with the column that is to blame, counted from 0; 0 where none is.
// 0 and no `Option`: C is told 0, and `pointed` gives it.
#[derive(Clone, Copy, Debug, PartialEq, Eq)]
pub struct Blame {
    pub refusal: Refusal,
    pub column: usize,
}

impl Refusal {
    /// The refusal for what stands at this column.
    pub fn at(self, column: usize) -> Blame
        ensures { result ≡ record { refusal = self; column = column } }
    {
        Blame {
            refusal: self,
            column,
        }
    }
}

impl From<Refusal> for Blame {
    ghost from_gives = { λ why b. b ≡ record { refusal = why; column = 0 } };

    /// A refusal that no column is to blame for.
    fn from(why: Refusal) -> Blame {
        why.at(0)
    }
}

/// 22, 23 and 24, of a line. The bytes that are decoded by then come to the front of `bytes`.
#[tactic(auto, unfolding(basis::specs::Refusals::first, basis::specs::Lists::stored, crate::specs::Record::characters_of, crate::specs::Record::column_of))]
pub fn characters(line: &[u8], bytes: &mut [u8]) -> Result<(), Blame>
    requires { 260 ≤ length bytes.old }
    ensures answer { let l = line.now in
        paper_check result ≡ pointed l (characters_of l) }
    ensures bytes { bytes.new ≡ copy_of bytes.old 0 (decoded_bytes line.now) }
{
    if !line.starts_with(b":") {
        return Err(Refusal::Colon.at(COLON));
    }
    let n = line.len();
    if !(SHORTEST..=LONGEST).contains(&n) || n % 2 == 0 {
        return Err(Refusal::Length.at(n));
    }
    decode(line, bytes).map_err(|place| Refusal::Digit.at(place))
}

/// 25 and 26, of a line and its bytes.
#[tactic(auto, unfolding(basis::specs::Refusals::first, crate::specs::Record::framing_of, crate::specs::Record::column_of))]
pub fn framing(line: &[u8], bytes: &[u8]) -> Result<(), Blame>
    requires { 1 ≤ length bytes.now }
    ensures { let l = line.now in
        paper_check result ≡ pointed l (framing_of (length l) bytes.now) }
{
    let n = line.len();
    if n != SHORTEST + 2 * usize::from(bytes[0]) {
        return Err(Refusal::Count.at(n));
    }
    if sum(bytes) != 0 {
        return Err(Refusal::Checksum.at(n - 2));
    }
    Ok(())
}

/// 27 and 28, of the bytes of whatever line.
#[tactic(auto, unfolding(basis::specs::Refusals::first, crate::specs::Record::shape_of, crate::specs::Record::column_of))]
pub fn shape(bytes: &[u8]) -> Result<(), Blame>
    requires { 4 ≤ length bytes.now }
    ensures { let b = bytes.now in
        (line : List ℕ) → b ≡ decoded (drop 1 line) → paper_check result ≡ pointed line (shape_of b) }
{
    let Some(kind) = Kind::of(bytes[3]) else {
        return Err(Refusal::Kind.at(KIND));
    };
    if kind == Kind::Data {
        return Ok(());
    }
    if bytes[0] != kind.count() {
        return Err(Refusal::Shape.at(COUNT));
    }
    if pair_at(bytes, 1) != 0 {
        return Err(Refusal::Shape.at(ADDRESS));
    }
    Ok(())
}
