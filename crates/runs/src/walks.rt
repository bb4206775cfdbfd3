// Walks over a map of any length: word by word, place by place, and page by page.
// The bounds keep the counts in 32 bits.
ghost use Rattle.std.specs.Prelude.{◌≡◌, ◌+◌, ◌*◌, ◌^◌, ◌<◌, ◌≤◌, length};
ghost use Rattle.basis.specs.Units.{start_of};
ghost use Rattle.runs.specs.Map.{named};
ghost use Rattle.runs.specs.Pieces.{piece_most};
ghost use Rattle.runs.specs.Tally.{tally_at};
ghost use Rattle.runs.specs.Survey.{tallies_at};

use crate::map::named;
use crate::places::PIECE;
use crate::tally::Tally;
use crate::words::word;
use basis::units::{Address, Page};

/// What a walk has met of the named bytes and of the touched pages.
#[derive(Clone, Copy, Debug, Default, PartialEq, Eq)]
pub struct Tallies {
    pub bytes: Tally,
    pub pages: Tally,
}

/// From the tally of the words below `from` to that of the words below `to`.
#[tactic(auto, using(crate::proofs::WordBits::words))]
pub fn over_words(map: &[u8], tally: Tally, from: usize, to: usize) -> Tally
    requires order { from ≤ to }
    requires end { 8 * to ≤ length map.now }
    requires small { to < 2 ^ 24 }
    requires met { tally ≡ tally_at (named map.now) piece_most (64 * from) }
    ensures { result ≡ tally_at (named map.now) piece_most (64 * to) }
{
    let mut t = tally;
    for i in from..to {
        t = t.took_word(word(map, 8 * i), PIECE);
    }
    t
}

/// From the tally of the addresses below `from` to that of the addresses below `to`.
#[tactic(auto, using(crate::proofs::Tallies::places))]
pub fn over_places(map: &[u8], tally: Tally, from: Address, to: Address) -> Tally
    requires order { from.0 ≤ to.0 }
    requires end { to.0 ≤ 8 * length map.now }
    requires small { to.0 < 2 ^ 30 }
    requires met { tally ≡ tally_at (named map.now) piece_most from.0 }
    ensures { result ≡ tally_at (named map.now) piece_most to.0 }
{
    let mut t = tally;
    for at in from.0..to.0 {
        t = t.took(named(map, Address(at)), PIECE);
    }
    t
}

/// From what a walk has met below the page `from` to what it has met below the page `to`, on a board of so many pages.
#[tactic(auto, using(crate::proofs::Surveys::pages))]
pub fn over_pages(board: u32, map: &[u8], met: Tallies, from: Page, to: Page) -> Tallies
    requires order { from.0 ≤ to.0 }
    requires end { start_of to.0 ≤ 8 * length map.now }
    requires small { to.0 < 2 ^ 16 }
    requires some { 0 < board }
    requires met { met ≡ tallies_at board map.now from.0 }
    ensures { result ≡ tallies_at board map.now to.0 }
{
    let mut t = met;
    for page in from.0..to.0 {
        // Eight words to a page.
        let first = 8 * (page as usize);
        let bytes = over_words(map, t.bytes, first, first + 8);
        let pages = t.pages.took(t.bytes.passed < bytes.passed, board);
        t = Tallies { bytes, pages };
    }
    t
}
