// The list of a file's packets, met one by one from the first on: E for each run of touched pages, W for each
// piece of named bytes, V for the same pieces, R.
ghost use Rattle.std.specs.Prelude.{◌≡◌, ◌+◌, ◌^◌, ◌<◌, ◌≤◌};
ghost use Rattle.basis.specs.Board.{pages_of};
ghost use Rattle.basis.specs.Choice.{pick};
ghost use Rattle.basis.specs.Units.{start_of};
ghost use Rattle.order.specs.Plan.{r_count, total};
ghost use Rattle.order.specs.Steps.{step_at};
ghost use Rattle.plain.specs.List.{met_of, walk_at};
ghost use Rattle.runs.specs.Map.{named};
ghost use Rattle.runs.specs.Pages.{touched};
ghost use Rattle.runs.specs.Pieces.{piece_most, named_count};

use basis::kind::RunKind;
use basis::units::{Address, Page};
use order::counts::sends_r;
use order::step::Step;
use runs::map::Map;
use runs::places::PIECE;

/// What a walk has come to: the number of the next packet, how many more pages or bytes the open one may take, and
/// where the one that is due starts.
// `place` is 0 until the due one is met, as `walk_at` has it: `list` asks by number first.
#[derive(Clone, Copy, Debug, PartialEq, Eq)]
pub struct Walk {
    pub number: u32,
    pub left: u32,
    pub place: u32,
}

impl Walk {
    // One page or byte more. One that does not pass, since it is not touched or named, closes what is open; one that
    // passes goes into it, or starts a packet, which takes up to `most` of them.
    #[tactic(auto, unfolding(crate::specs::List::met_of))]
    fn met(self, at: u32, passes: bool, most: u32, due: u32) -> Walk
        requires small { self.number < 2 ^ 31 }
        requires some { 0 < most }
        ensures { result ≡ met_of most due at self passes }
    {
        if !passes {
            return Walk { left: 0, ..self };
        }
        if 0 < self.left {
            return Walk {
                left: self.left - 1,
                ..self
            };
        }
        Walk {
            number: self.number + 1,
            left: most - 1,
            place: if self.number == due { at } else { self.place },
        }
    }
}

/// All pages: a packet for each run of touched ones, numbered from `number` on.
#[tactic(auto, using(crate::proofs::Lists::walks))]
pub fn pages(map: Map<'_>, number: u32, due: u32) -> Walk
    requires { number < 2 ^ 30 }
    ensures walk { let board = pages_of map.entry.board in
        result ≡ walk_at (touched map.entry.bits.now) board number due board }
    ensures most { result.number ≤ number + pages_of map.entry.board }
{
    let end = map.board.pages();
    let mut walk = Walk {
        number,
        left: 0,
        place: 0,
    };
    for page in 0..end {
        walk = walk.met(page, map.touches(Page(page)), end, due);
    }
    walk
}

/// The bytes below `end`: a packet for each piece of named ones, numbered from `number` on.
// Beside `pages`: a walk over a trait of page and address is longer than both.
#[tactic(auto, using(crate::proofs::Lists::walks))]
pub fn bytes(map: Map<'_>, end: Address, number: u32, due: u32) -> Walk
    requires end { end.0 ≤ start_of (pages_of map.board) }
    requires small { number < 2 ^ 30 }
    ensures walk { result ≡ walk_at (named map.entry.bits.now) piece_most number due end.0 }
    ensures most { result.number ≤ number + end.0 }
{
    let mut walk = Walk {
        number,
        left: 0,
        place: 0,
    };
    for at in 0..end.0 {
        walk = walk.met(at, map.names(Address(at)), PIECE, due);
    }
    walk
}

/// The packet that is due, and how many there are.
#[derive(Clone, Copy, Debug, PartialEq, Eq)]
pub struct Listed {
    pub step: Step,
    pub total: u32,
}

/// The whole list: its packet with the number `due`, counted from 0. A number past the last V is R's.
#[tactic(auto, using(crate::proofs::Lists::lists))]
pub fn list(map: Map<'_>, kind: RunKind, due: u32) -> Listed
    ensures step { result.step ≡ step_at (pages_of map.entry.board) map.entry.bits.now due }
    ensures total { result.total ≡ total (pages_of map.entry.board) map.entry.bits.now kind }
{
    let end = map.board.end();
    let erases = pages(map, 0, due);
    let writes = bytes(map, end, erases.number, due);
    let verifies = bytes(map, end, writes.number, due);
    let total = with_r(verifies.number, kind);
    let step = if due < erases.number {
        Step::Erase(Page(erases.place))
    } else if due < writes.number {
        Step::Write(Address(writes.place))
    } else if due < verifies.number {
        Step::Verify(Address(verifies.place))
    } else {
        Step::Run
    };
    Listed { step, total }
}

/// R is one packet more; to hold there is none.
pub fn with_r(number: u32, kind: RunKind) -> u32
    requires { number < 2 ^ 31 }
    ensures { result ≡ number + r_count kind }
{
    number + u32::from(sends_r(kind))
}

/// How many bytes the file names.
#[tactic(auto, using(crate::proofs::Lists::counts))]
pub fn named_bytes(map: Map<'_>) -> u32
    ensures { result ≡ named_count (pages_of map.entry.board) map.entry.bits.now }
{
    let mut bytes = 0;
    for at in 0..map.board.end().0 {
        bytes = one_more(bytes, map.names(Address(at)));
    }
    bytes
}

fn one_more(count: u32, passes: bool) -> u32
    requires { count < 2 ^ 31 }
    ensures { result ≡ pick passes (count + 1) count }
{
    count + u32::from(passes)
}
