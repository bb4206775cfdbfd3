// The writer: a session that has ended, or an outcome and counts, as the board's record in the caller's buffer.
ghost use Rattle.std.specs.Prelude.{◌≡◌, ◌≤◌, length};
ghost use Rattle.basis.specs.Lists.{overlay};
ghost use Rattle.basis.specs.Refusals.{counted, written};
ghost use Rattle.service_log.specs.Log.{record_size, outcome_of, logged_outcome_of, record_bytes, counts_on, counts_by, write_on, write_of};
ghost use Rattle.service_log.specs.Paper.{paper_unwritten, paper_written, paper_logged};

use crate::big::put_big;
use crate::read::record_size;
use crate::truth::Counts;
use basis::board::Board;
use basis::buffers::write as put;
use basis::kind::RunKind;
use basis::numbered::Numbered;
use events::ending::Outcome;
use session::phase::Phase;
use session::session::Session;

/// Why nothing is written.
#[derive(Clone, Copy, Debug, PartialEq, Eq)]
pub enum Unwritten {
    /// There is no such board.
    Board = 65,
    /// The session is unfinished, or no record says such an outcome and such counts.
    Unfit = 45,
    /// The buffer is shorter than a record.
    NoRoom = 20,
}

impl Numbered for Unwritten {
    ghost number_of = { paper_unwritten };

    /// The number in the paper's list.
    fn number(self) -> u32 {
        self as u32
    }
}

/// Writes a session's record at the start of the buffer, and gives how many bytes it has.
///
/// 65 for no board, 45 for a session that is unfinished or whose ending is not its run kind's, then 20 where the buffer
/// has too few bytes; it then stays as it was.
pub fn write(session: Session, buffer: &mut [u8]) -> Result<usize, Unwritten>
    ensures answer { paper_written result ≡ counted (write_of (length buffer.old) session) }
    ensures bytes { let b = write_of (length buffer.old) session in
        buffer.new ≡ overlay (written b) buffer.old }
{
    let Some(board) = Board::of(session.board) else {
        return Err(Unwritten::Board);
    };
    write_on(board, session, buffer)
}

#[tactic(auto, using(crate::proofs::Steps::outcomes))]
fn write_on(board: Board, session: Session, buffer: &mut [u8]) -> Result<usize, Unwritten>
    ensures answer { paper_written result ≡ counted (write_on board (length buffer.old) session) }
    ensures bytes { let b = write_on board (length buffer.old) session in
        buffer.new ≡ overlay (written b) buffer.old }
{
    let Some(outcome) = outcome_of(session.kind, session.phase) else {
        return Err(Unwritten::Unfit);
    };
    let counts = Counts {
        outcome: outcome.number(),
        acknowledged: session.acknowledged,
        total: session.total,
        bytes: session.named,
    };
    counts_on(board, counts, buffer)
}

/// The same of an outcome by its number and of counts, for a session that keeps no phase.
// Four numbers and no `Counts`: docs/CONTRACTS.md names it so.
pub fn write_counts(
    board: u32,
    outcome: u8,
    acknowledged: u32,
    total: u32,
    bytes: u32,
    buffer: &mut [u8],
) -> Result<usize, Unwritten>
    ensures answer { let b = counts_by board (length buffer.old) outcome acknowledged total bytes in
        paper_written result ≡ counted b }
    ensures bytes { let b = counts_by board (length buffer.old) outcome acknowledged total bytes in
        buffer.new ≡ overlay (written b) buffer.old }
{
    let Some(known) = Board::of(board) else {
        return Err(Unwritten::Board);
    };
    let counts = Counts {
        outcome,
        acknowledged,
        total,
        bytes,
    };
    counts_on(known, counts, buffer)
}

#[tactic(auto, using(crate::proofs::Steps::lengths), unfolding(basis::specs::Refusals::first, crate::specs::Log::counts_on))]
fn counts_on(board: Board, counts: Counts, buffer: &mut [u8]) -> Result<usize, Unwritten>
    ensures answer { let c = counts in
        let b = counts_on board (length buffer.old) c.outcome c.acknowledged c.total c.bytes in
        paper_written result ≡ counted b }
    ensures bytes { let c = counts in
        let b = counts_on board (length buffer.old) c.outcome c.acknowledged c.total c.bytes in
        buffer.new ≡ overlay (written b) buffer.old }
{
    let size = record_size(board);
    if !counts.fit(board.count_bytes()) {
        return Err(Unwritten::Unfit);
    }
    if counts.is_false(board) {
        return Err(Unwritten::Unfit);
    }
    if buffer.len() < size {
        return Err(Unwritten::NoRoom);
    }
    put_record(board, counts, buffer);
    Ok(size)
}

fn put_record(board: Board, counts: Counts, buffer: &mut [u8])
    requires { record_size board ≤ length buffer.old }
    ensures { let c = counts in
        buffer.new ≡ overlay (record_bytes board c.outcome c.acknowledged c.total c.bytes) buffer.old }
{
    let [high, low] = (board.log_length() as u16).to_be_bytes();
    let version = board.log_version();
    let width = board.count_bytes();
    put(buffer, &[high, low, version, counts.outcome]);
    put_big(buffer, 4, width, counts.acknowledged);
    put_big(buffer, 4 + width, width, counts.total);
    put_big(buffer, 4 + 2 * width, width, counts.bytes);
}

/// The outcome that a session's record tells: none where it is unfinished, where its ending is another run kind's, and
/// where there is no such board. The number 45, which no record has, stands for none.
pub fn logged_outcome(session: Session) -> Option<Outcome>
    ensures { paper_logged result ≡ logged_outcome_of session }
{
    Board::of(session.board)?;
    outcome_of(session.kind, session.phase)
}

// None where there is no outcome yet, and for another run kind's ending.
fn outcome_of(kind: RunKind, phase: Phase) -> Option<Outcome>
    ensures { paper_logged result ≡ outcome_of kind phase }
{
    match phase {
        Phase::Greeting | Phase::Out(_) => None,
        Phase::Ended(outcome) => outcome.suits(kind).then_some(outcome),
    }
}
