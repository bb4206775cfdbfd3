// The steps of a file's packets, one after another.
ghost use Rattle.std.specs.Prelude.{◌≡◌, true, ◌<◌, Some};
ghost use Rattle.std.specs.Iterator.{YieldsFirst, item_count};
ghost use Rattle.basis.specs.Board.{pages_of};
ghost use Rattle.runs.specs.Pieces.{named_count};
ghost use Rattle.order.specs.Steps.{first_of};
ghost use Rattle.order.specs.Walk.{stands_next, steps_left, steps_of};

use crate::cursor::{first, follow};
use crate::step::Step;
use basis::kind::RunKind;
use runs::map::Map;

/// The steps from `next` on, in the order in which their packets are sent; behind the last there is none.
#[derive(Clone, Copy)]
pub struct Steps<'a> {
    pub map: Map<'a>,
    pub kind: RunKind,
    pub next: Option<Step>,
    pub ghost some: { 0 < named_count (pages_of map.board) map.bits.now },
    pub ghost stands: { stands_next (pages_of map.board) map.bits.now kind next ≡ true },
}

impl<'a> Steps<'a> {
    /// All steps of a file that names a byte, as the run kind has them: hold has no R.
    #[tactic(auto, using(crate::proofs::Walk::walk))]
    pub fn new(map: Map<'a>, kind: RunKind) -> Steps<'a>
        requires { 0 < named_count (pages_of map.board) map.bits.now }
        ensures steps { steps_left (pages_of result.map.board) result.map.bits.now result.kind result.next
            ≡ steps_of (pages_of map.entry.board) map.entry.bits.now kind }
        ensures board { result.map.board ≡ map.entry.board }
        ensures bits { result.map.bits.now ≡ map.entry.bits.now }
        ensures kind { result.kind ≡ kind }
        ensures next { result.next ≡ Some (first_of (pages_of map.entry.board) map.entry.bits.now) }
    {
        Steps {
            map,
            kind,
            next: Some(first(map)),
        }
    }
}

impl Iterator for Steps<'_> {
    type Item = Step;

    ghost next_gives = { YieldsFirst (λ s. steps_left (pages_of s.map.board) s.map.bits.now s.kind s.next) };

    ghost remaining = { item_count (λ s. steps_left (pages_of s.map.board) s.map.bits.now s.kind s.next) };

    #[tactic(auto, using(crate::proofs::Walk::walk))]
    fn next(&mut self) -> Option<Step> {
        let step = self.next?;
        self.next = follow(self.map, self.kind, step);
        Some(step)
    }
}
