// Touched pages in order: those that hold a named byte, the next one, and how many stand in a row.
ghost use Rattle.std.specs.Prelude.{◌≡◌, ◌+◌, ◌-◌, ◌*◌, ◌/◌, ◌%◌, ◌^◌, ◌<◌, ◌≤◌, IfSome, length, max};
ghost use Rattle.basis.specs.Board.{pages_of};
ghost use Rattle.basis.specs.Units.{start_of};
ghost use Rattle.runs.specs.Found.{page_or};
ghost use Rattle.runs.specs.Pages.{touched};
ghost use Rattle.runs.specs.Pieces.{run_len};
ghost use Rattle.runs.specs.Runs.{next, len};

use crate::map::Map;
use crate::places::{any_named, next_named};
use basis::board::PAGE;
use basis::units::Page;

impl Map<'_> {
    /// Whether the page holds a named byte.
    pub fn touches(self, page: Page) -> bool
        requires { page.0 < pages_of self.board }
        ensures { result ≡ touched self.entry.bits.now page.0 }
    {
        touched(self.bits, page)
    }

    /// The lowest touched page from `from` on; none where there is no more.
    pub fn next_touched(self, from: Page) -> Option<Page>
        ensures next { let f = pages_of self.entry.board - from.0 in
            page_or (from.0 + f) result ≡ next (touched self.entry.bits.now) from.0 f }
        ensures below { IfSome result (λ p. p.0 < pages_of self.entry.board) }
    {
        next_touched(self.bits, from, Page(self.board.pages()))
    }

    /// How many pages the run from `from` on has: those touched in a row.
    pub fn run_len(self, from: Page) -> u32
        requires { from.0 ≤ pages_of self.board }
        ensures run { result ≡ run_len (pages_of self.entry.board) self.entry.bits.now from.0 }
        ensures inside { from.0 + result ≤ pages_of self.entry.board }
    {
        page_row_len(self.bits, from, self.board.pages())
    }
}

/// Whether the page holds a named byte, in a map of any length.
#[tactic(auto, unfolding(crate::specs::Pages::touched))]
pub fn touched(map: &[u8], page: Page) -> bool
    requires small { page.0 + 1 < 2 ^ 23 }
    requires inside { start_of (page.0 + 1) ≤ 8 * length map.now }
    ensures { result ≡ touched map.now page.0 }
{
    any_named(map, page.start(), PAGE)
}

/// The lowest touched page from `from` on and below `limit`, that of the lowest named byte, in a map of any length;
/// none where there is none.
#[tactic(auto, using(crate::proofs::Searches::pages))]
pub fn next_touched(map: &[u8], from: Page, limit: Page) -> Option<Page>
    requires small { limit.0 < 2 ^ 23 }
    requires inside { start_of limit.0 ≤ 8 * length map.now }
    ensures next { let f = limit.0 - from.0 in
        page_or (from.0 + f) result ≡ next (touched map.now) from.0 f }
    ensures below { IfSome result (λ p. p.0 < limit.0) }
{
    if limit.0 <= from.0 {
        return None;
    }
    Some(Page::from(next_named(map, from.start(), limit.start())?))
}

/// How many touched pages stand in a row from `from` on, at most `cap`, in a map of whole pages.
#[tactic(auto, using(crate::proofs::Searches::runs))]
pub fn page_row_len(map: &[u8], from: Page, cap: u32) -> u32
    requires small { from.0 + cap < 2 ^ 23 }
    requires whole { length map.now % 64 ≡ 0 }
    ensures row { result ≡ len (touched map.now) from.0 cap }
    ensures inside { from.0 + result ≤ max from.0 (length map.now / 64) }
{
    for n in 0..cap {
        let page = Page(from.0 + n);
        // A page has 64 bytes of the map.
        if map.len() / 64 <= page.0 as usize || !touched(map, page) {
            return n;
        }
    }
    cap
}
