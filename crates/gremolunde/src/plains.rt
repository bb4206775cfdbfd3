// The plain session for C.
// C has a name of its own for what either session does: both call `started`, `stepped` and `mark_answer`.
ghost use Rattle.std.specs.Prelude.{◌≡◌, length};
ghost use Rattle.alike.specs.Alike.{plain_log};
ghost use Rattle.basis.specs.Board.{pages_of, board_of};
ghost use Rattle.basis.specs.Lists.{overlay};
ghost use Rattle.basis.specs.Refusals.{on_board, counted, written};
ghost use Rattle.basis.specs.RunKinds.{kind_of};
ghost use Rattle.basis.specs.declared.board.Board.{Board};
ghost use Rattle.course.specs.Paper.{paper_stepped};
ghost use Rattle.gremolunde.specs.Answers.{length_answer, mark_answer, no_plain, plain_stepped_answer};
ghost use Rattle.gremolunde.specs.States.{is_set, plain_meant};
ghost use Rattle.plain.specs.Plain.{measured, sent_bytes, started, step_by, proved_by, outcome_by};

use crate::answers::{Length, length_answer};
use crate::sessions::{SessionMark, mark_answer, started, stepped};
use crate::states::{PlainState, plain_meant, plain_shown};
use alike::log::write;
use basis::numbered::Numbered;
use basis::units::Address;
use events::refusal::Refusal;
use plain::plain::{Next, outcome};

/// The number of a refusal, else 0 with the length of the packet in the buffer, in bytes, and the next state; a
/// refusal hands the state back as it came.
#[repr(C)]
#[derive(Clone, Copy)]
pub struct PlainStepped {
    pub number: u32,
    pub length: usize,
    pub plain: PlainState,
}

/// Starts a plain session, as `gremolunde_session_start` a session.
#[unsafe(no_mangle)]
pub extern "C" fn gremolunde_plain_start(
    board: u32,
    run: u32,
    image: &[u8],
    map: &[u8],
    buffer: &mut [u8],
) -> PlainStepped
    ensures answer { let a = on_board (board_of board) (λ (b : Board).
        started (pages_of b) image.now map.now (length buffer.old)
        (kind_of run)) in
        result ≡ plain_stepped_answer no_plain (measured a) }
    ensures bytes { let a = on_board (board_of board) (λ (b : Board).
        started (pages_of b) image.now map.now (length buffer.old)
        (kind_of run)) in
        buffer.new ≡ overlay (sent_bytes a) buffer.old }
{
    plain_stepped_answer(no_plain(), started(board, run, image, map, buffer))
}

// What a start that is refused hands back.
fn no_plain() -> PlainState
    ensures { result ≡ no_plain }
{
    PlainState::default()
}

/// A step of a plain session, as `gremolunde_session_step` of a session.
#[unsafe(no_mangle)]
pub extern "C" fn gremolunde_plain_step(
    plain: PlainState,
    silent: u8,
    answer: &[u8],
    image: &[u8],
    map: &[u8],
    buffer: &mut [u8],
) -> PlainStepped
    ensures answer { let a = step_by image.now map.now (length buffer.old)
        (plain_meant plain) (is_set silent) answer.now in
        result ≡ plain_stepped_answer plain (measured a) }
    ensures bytes { let a = step_by image.now map.now (length buffer.old)
        (plain_meant plain) (is_set silent) answer.now in
        buffer.new ≡ overlay (sent_bytes a) buffer.old }
{
    plain_stepped_answer(
        plain,
        stepped(plain_meant(plain), silent, answer, image, map, buffer),
    )
}

// As `stepped_answer` for a session, into the plain session's own struct for C.
fn plain_stepped_answer(plain: PlainState, answer: Result<Next, Refusal>) -> PlainStepped
    ensures { result ≡ plain_stepped_answer plain (paper_stepped answer) }
{
    match answer {
        Ok(next) => PlainStepped {
            number: 0,
            length: next.len,
            plain: plain_shown(next.session),
        },
        Err(why) => PlainStepped {
            number: why.number(),
            length: 0,
            plain,
        },
    }
}

/// Whether the byte is marked proved, as `gremolunde_session_proved` for a session.
#[unsafe(no_mangle)]
pub extern "C" fn gremolunde_plain_proved(
    plain: PlainState,
    map: &[u8],
    address: u32,
) -> SessionMark
    ensures { result ≡ mark_answer (proved_by map.now (plain_meant plain) address) }
{
    mark_answer(plain_meant(plain).proved(map, Address(address)))
}

/// How a plain session ended, as a session's outcome: 0, 1 and 40 to 43, or 45.
#[unsafe(no_mangle)]
pub extern "C" fn gremolunde_plain_outcome(plain: PlainState) -> u32
    ensures { result ≡ outcome_by (plain_meant plain) }
{
    outcome(plain_meant(plain)) as u32
}

/// Writes the log record of a plain session that has ended, and gives its length in bytes. Refused are a session of no
/// board (65), one that no record says (45), and a buffer shorter than the record (20).
#[unsafe(no_mangle)]
pub extern "C" fn gremolunde_plain_log_write(plain: PlainState, buffer: &mut [u8]) -> Length
    ensures answer { let b = plain_log (length buffer.old) (plain_meant plain) in
        result ≡ length_answer (counted b) }
    ensures bytes { let b = plain_log (length buffer.old) (plain_meant plain) in
        buffer.new ≡ overlay (written b) buffer.old }
{
    length_answer(write(plain_meant(plain), buffer))
}
