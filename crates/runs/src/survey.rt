// The survey: one walk over the map that counts what a file has, and ranks a place among it.
ghost use Rattle.std.specs.Prelude.{◌≡◌, ◌^◌, ◌<◌, ◌≤◌};
ghost use Rattle.basis.specs.Board.{pages_of};
ghost use Rattle.basis.specs.Units.{start_of};
ghost use Rattle.runs.specs.Map.{named};
ghost use Rattle.runs.specs.Pieces.{piece_most};
ghost use Rattle.runs.specs.Survey.{survey_of};
ghost use Rattle.runs.specs.Tally.{tally_at};

use crate::map::Map;
use crate::tally::Tally;
use crate::walks::{Tallies, over_pages, over_places, over_words};
use basis::units::{Address, Page};

/// How many runs of touched pages, pieces and named bytes there are.
// No ghost field keeps them small: `survey_of` counts those of any map.
#[derive(Clone, Copy, Debug, PartialEq, Eq)]
pub struct Counts {
    pub runs: u32,
    pub pieces: u32,
    pub named: u32,
}

/// How many runs and pieces start below a place.
#[derive(Clone, Copy, Debug, PartialEq, Eq)]
pub struct Rank {
    pub runs: u32,
    pub pieces: u32,
}

/// What the file has in all, the rank of a place, and whether a run of pages and a piece start there.
#[derive(Clone, Copy, Debug, PartialEq, Eq)]
pub struct Surveyed {
    pub all: Counts,
    pub below: Rank,
    pub run: bool,
    pub piece: bool,
}

/// Surveys the whole map, and ranks the address `at`.
// In three stretches: below the page of `at`, that page, and behind it.
// The page's words up to `at` are taken once more, to rank `at` itself.
pub fn survey(map: Map<'_>, at: Address) -> Surveyed
    requires { at.0 < start_of (pages_of map.board) }
    ensures survey { result ≡ survey_of (pages_of map.entry.board) map.entry.bits.now at.0 }
    ensures runs { result.all.runs < 2 ^ 20 }
    ensures pieces { result.all.pieces < 2 ^ 20 }
    ensures below { result.below.pieces < 2 ^ 20 }
{
    let page = Page::from(at);
    let behind = Page(page.0 + 1);
    let pages = map.board.pages();
    let below = over_pages(pages, map.bits, Tallies::default(), Page(0), page);
    let here = over_pages(pages, map.bits, below, page, behind);
    let all = over_pages(pages, map.bits, here, behind, Page(pages));
    let place = up_to(map, below.bytes, page, at);
    let next = over_places(map.bits, place, at, Address(at.0 + 1));
    Surveyed {
        all: Counts {
            runs: all.pages.pieces,
            pieces: all.bytes.pieces,
            named: all.bytes.passed,
        },
        below: Rank {
            runs: below.pages.pieces,
            pieces: place.pieces,
        },
        run: below.pages.pieces < here.pages.pieces,
        piece: place.pieces < next.pieces,
    }
}

// From the tally of the addresses below a page to that of the addresses below one of the page's.
fn up_to(map: Map<'_>, tally: Tally, page: Page, at: Address) -> Tally
    requires start { start_of page.0 ≤ at.0 }
    requires end { at.0 ≤ start_of (pages_of map.board) }
    requires met { tally ≡ tally_at (named map.bits.now) piece_most (start_of page.0) }
    ensures { result ≡ tally_at (named map.entry.bits.now) piece_most at.0 }
{
    // The word that `at` lies in.
    let word = at.0 / 64;
    let t = over_words(map.bits, tally, 8 * (page.0 as usize), word as usize);
    over_places(map.bits, t, Address(word * 64), at)
}
