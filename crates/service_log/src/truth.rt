// What a record says of a session, and what none may say: the writer refuses it of a session, the reader of its input.
ghost use Rattle.std.specs.Prelude.{◌≡◌, ◌≤◌};
ghost use Rattle.basis.specs.Board.{pages_of};
ghost use Rattle.service_log.specs.Log.{known, few, is_false_of, counts_fit};

use crate::big::fits_in;
use basis::board::Board;

/// An outcome by its number, `acknowledged` of `total` packets, and how many bytes the file has.
// The outcome is a number: a record may have any, which 53 answers, and `write_counts` be given any, which 45 does.
#[derive(Clone, Copy, Debug, PartialEq, Eq)]
pub struct Counts {
    pub outcome: u8,
    pub acknowledged: u32,
    pub total: u32,
    pub bytes: u32,
}

impl Counts {
    /// Whether no record of the board may say so.
    ///
    /// The outcome is none of 0, 1 and 40 to 43; the total is too small; the bytes are 0 or above the board's; or
    /// outcome and packets do not agree.
    #[tactic(auto, unfolding(crate::specs::Log::is_false_of))]
    pub fn is_false(self, board: Board) -> bool
        ensures { result ≡ is_false_of (pages_of board) self.outcome self.acknowledged self.total self.bytes }
    {
        if !self.is_known() {
            return true;
        }
        if self.is_few() {
            return true;
        }
        if self.bytes == 0 {
            return true;
        }
        if board.end().0 < self.bytes {
            return true;
        }
        if self.total < self.acknowledged {
            return true;
        }
        if self.outcome <= 1 {
            return self.acknowledged != self.total;
        }
        if self.acknowledged == self.total {
            return true;
        }
        self.outcome == 42 && 0 < self.acknowledged
    }

    fn is_known(self) -> bool
        ensures { result ≡ known self.outcome }
    {
        matches!(self.outcome, 0..=1 | 40..=43)
    }

    // One E, one W, one V; where the outcome is valid R too.
    fn is_few(self) -> bool
        ensures { result ≡ few self.outcome self.total }
    {
        if self.total < 3 {
            return true;
        }
        self.outcome == 0 && self.total == 3
    }

    /// Whether the three counts fit `width` bytes each, of at most 4.
    pub fn fit(self, width: usize) -> bool
        requires { width ≤ 4 }
        ensures { result ≡ counts_fit width self.acknowledged self.total self.bytes }
    {
        if !fits_in(width, self.acknowledged) {
            return false;
        }
        fits_in(width, self.total) && fits_in(width, self.bytes)
    }
}
