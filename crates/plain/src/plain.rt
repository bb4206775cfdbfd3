// The plain session: a session that lists its packets afresh at each step, and how it ended.
ghost use Rattle.std.specs.Prelude.{◌≡◌};
ghost use Rattle.plain.specs.Plain.{outcome_by};

use crate::stage::Stage;
use basis::board::Board;
use course::state::{self, State};

/// A session whose place is told by how many packets are acknowledged.
pub type Plain = State<Stage>;

/// Its next state, with the length of the packet that stands in the buffer.
pub type Next = state::Next<Stage>;

/// The outcome's number: 0 valid, 1 verified and held, 40 to 43; 45, which no record has, where the session is
/// unfinished, its ending is not its run kind's, or there is no such board.
// Beside the log's `logged_outcome`, of which `same_outcome` says that it is the same: each has edits in its own crate.
// A number and no Option: both that ask for it, C and the log's `write_counts`, take the number.
pub fn outcome(plain: Plain) -> u8
    ensures { result ≡ outcome_by plain }
{
    match (Board::of(plain.board), plain.phase) {
        (None, _) => 45,
        (Some(_), Stage::Waiting | Stage::UnderWay) => 45,
        (Some(_), Stage::Ended(outcome)) => outcome.own_number(plain.kind),
    }
}
