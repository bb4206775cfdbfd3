// The cursor walks the file's packets without listing them: where a step stands, and what comes after it.
ghost use Rattle.std.specs.Prelude.{◌≡◌, true, ◌<◌};
ghost use Rattle.basis.specs.Board.{pages_of};
ghost use Rattle.basis.specs.Units.{start_of};
ghost use Rattle.runs.specs.Found.{IsAddress, IsPage};
ghost use Rattle.order.specs.Steps.{at_start, lowest_piece, next_run, next_piece, first_of, after_erase, after_write, behind_last, after_verify, follow_of, place_of};
ghost use Rattle.order.specs.declared.step.Step.{Step};

use crate::counts::sends_r;
use crate::step::Step;
use basis::board::Board;
use basis::kind::RunKind;
use basis::units::{Address, Page};
use runs::map::Map;
use runs::places::PIECE;

/// The address that a step names: 0 for R, the board's end for a page past the board.
// No `Option`: `place_of` gives each step an address, and the map is surveyed at any.
#[tactic(auto, unfolding(crate::specs::Steps::place_of))]
pub fn place(board: Board, step: Step) -> Address
    ensures { result.0 ≡ place_of (pages_of board) step }
{
    match step {
        Step::Erase(page) => page_place(board, page),
        Step::Write(address) | Step::Verify(address) => address,
        Step::Run => Address(0),
    }
}

#[tactic(auto, unfolding(crate::specs::Steps::place_of))]
fn page_place(board: Board, page: Page) -> Address
    ensures { result.0 ≡ place_of (pages_of board) (Step.Erase page) }
{
    let pages = board.pages();
    if pages <= page.0 {
        return board.end();
    }
    page.start()
}

/// E of the first run of pages.
pub fn first(map: Map<'_>) -> Step
    ensures { result ≡ first_of (pages_of map.entry.board) map.entry.bits.now }
{
    let end = Page(map.board.pages());
    Step::Erase(map.next_touched(Page(0)).unwrap_or(end))
}

/// What comes after a step; behind the last there is nothing.
#[tactic(auto, using(crate::proofs::Starts::below), unfolding(crate::specs::Steps::follow_of))]
pub fn follow(map: Map<'_>, kind: RunKind, step: Step) -> Option<Step>
    requires { at_start (pages_of map.board) map.bits.now step ≡ true }
    ensures { result ≡ follow_of (pages_of map.entry.board) map.entry.bits.now kind step }
{
    match step {
        Step::Erase(page) => after_erase(map, page),
        Step::Write(address) => after_write(map, address),
        Step::Verify(address) => after_verify(map, kind, address),
        Step::Run => None,
    }
}

// Each of the three names its step and what comes behind its last.
fn after_erase(map: Map<'_>, page: Page) -> Option<Step>
    requires { page.0 < pages_of map.board }
    ensures { result ≡ after_erase (pages_of map.entry.board) map.entry.bits.now page.0 }
{
    if let Some(next) = next_run(map, page) {
        return Some(Step::Erase(next));
    }
    Some(Step::Write(first_piece(map)))
}

fn after_write(map: Map<'_>, address: Address) -> Option<Step>
    requires { address.0 < start_of (pages_of map.board) }
    ensures { result ≡ after_write (pages_of map.entry.board) map.entry.bits.now address.0 }
{
    if let Some(next) = next_piece(map, address) {
        return Some(Step::Write(next));
    }
    Some(Step::Verify(first_piece(map)))
}

fn after_verify(map: Map<'_>, kind: RunKind, address: Address) -> Option<Step>
    requires { address.0 < start_of (pages_of map.board) }
    ensures { result ≡ after_verify (pages_of map.entry.board) map.entry.bits.now kind address.0 }
{
    if let Some(next) = next_piece(map, address) {
        return Some(Step::Verify(next));
    }
    behind_last(kind)
}

// R, or to hold nothing.
fn behind_last(kind: RunKind) -> Option<Step>
    ensures { result ≡ behind_last kind }
{
    sends_r(kind).then_some(Step::Run)
}

// The board's end where no byte is named.
fn first_piece(map: Map<'_>) -> Address
    ensures { result.0 ≡ lowest_piece (pages_of map.entry.board) map.entry.bits.now }
{
    map.next_named(Address(0)).unwrap_or(map.board.end())
}

// The run after the one at `page`. A walk over a trait of page and address would be longer than this and the next.
fn next_run(map: Map<'_>, page: Page) -> Option<Page>
    requires { page.0 < pages_of map.board }
    ensures { let b = pages_of map.entry.board in IsPage b (next_run b map.entry.bits.now page.0) result }
{
    map.next_touched(Page(page.0 + map.run_len(page)))
}

// The piece after the one at `address`.
fn next_piece(map: Map<'_>, address: Address) -> Option<Address>
    requires { address.0 < start_of (pages_of map.board) }
    ensures { let b = pages_of map.entry.board in
        IsAddress (start_of b) (next_piece b map.entry.bits.now address.0) result }
{
    let end = address.0 + map.row_len(address, PIECE);
    map.next_named(Address(end))
}
