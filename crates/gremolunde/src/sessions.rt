// The host session for C, and what the plain one has in common with it.
ghost use Rattle.std.specs.Prelude.{◌≡◌, length};
ghost use Rattle.basis.specs.Board.{pages_of, board_of};
ghost use Rattle.basis.specs.Lists.{overlay};
ghost use Rattle.basis.specs.Refusals.{answer_of, on_board};
ghost use Rattle.basis.specs.RunKinds.{kind_of};
ghost use Rattle.basis.specs.declared.board.Board.{Board};
ghost use Rattle.course.specs.Course as course;
ghost use Rattle.course.specs.Paper.{paper_stepped};
ghost use Rattle.events.specs.Paper.{paper_mark};
ghost use Rattle.gremolunde.specs.Answers.{no_session, stepped_answer, mark_answer};
ghost use Rattle.gremolunde.specs.States.{is_set, session_meant};
ghost use Rattle.service_log.specs.Log.{logged_outcome_of};
ghost use Rattle.session.specs.Session.{measured, sent_bytes, started, step_by, proved_by};

use crate::states::{SessionState, session_meant, session_shown};
use basis::board::Board;
use basis::kind::RunKind;
use basis::numbered::Numbered;
use basis::units::Address;
use course::course::Course;
use course::state;
use course::state::State;
use events::refusal::{Mark, Refusal};
use service_log::write::logged_outcome;
use session::session::Next;

/// The number of a refusal, else 0 with the length of the packet in the buffer, in bytes, and the next state; a
/// refusal hands the state back as it came.
#[repr(C)]
#[derive(Clone, Copy)]
pub struct SessionStepped {
    pub number: u32,
    pub length: usize,
    pub session: SessionState,
}

/// The number of a refusal, else 0 with 1 for a byte that is marked proved, and 0 for another.
#[repr(C)]
#[derive(Clone, Copy)]
pub struct SessionMark {
    pub number: u32,
    pub proved: u8,
}

/// Starts a session on a board of so many pages: writes the byte that opens it. Refused are a board that there is not
/// (65), sizes that are not the board's or a buffer shorter than a packet (20), and a map that names no byte (32).
#[unsafe(no_mangle)]
pub extern "C" fn gremolunde_session_start(
    board: u32,
    run: u32,
    image: &[u8],
    map: &[u8],
    buffer: &mut [u8],
) -> SessionStepped
    ensures answer { let a = on_board (board_of board) (λ (b : Board).
        started (pages_of b) image.now map.now (length buffer.old)
        (kind_of run)) in
        result ≡ stepped_answer no_session (measured a) }
    ensures bytes { let a = on_board (board_of board) (λ (b : Board).
        started (pages_of b) image.now map.now (length buffer.old)
        (kind_of run)) in
        buffer.new ≡ overlay (sent_bytes a) buffer.old }
{
    stepped_answer(no_session(), started(board, run, image, map, buffer))
}

/// A start of either session.
pub fn started<P: Course>(
    board: u32,
    run: u32,
    image: &[u8],
    map: &[u8],
    buffer: &mut [u8],
) -> Result<state::Next<P>, Refusal>
    ensures answer { let a = on_board (board_of board) (λ (b : Board).
        course.started P.keeping (pages_of b) image.now map.now (length buffer.old)
        (kind_of run)) in
        paper_stepped result ≡ course.measured a }
    ensures bytes { let a = on_board (board_of board) (λ (b : Board).
        course.started P.keeping (pages_of b) image.now map.now (length buffer.old)
        (kind_of run)) in
        buffer.new ≡ overlay (course.sent_bytes a) buffer.old }
{
    let board = Board::of(board).ok_or(Refusal::Board)?;
    State::start(board, RunKind::of(run), image, map, buffer)
}

/// What a start that is refused hands back.
pub fn no_session() -> SessionState
    ensures { result ≡ no_session }
{
    SessionState::default()
}

/// Takes an answer's bytes, or silence where `silent` is not 0: the next state, and its packet in the buffer. Refused
/// are a session of no board (65), sizes that are not the board's or a buffer shorter than a packet (20), a session
/// that has ended (44), and a file that is not the session's (46).
#[unsafe(no_mangle)]
pub extern "C" fn gremolunde_session_step(
    session: SessionState,
    silent: u8,
    answer: &[u8],
    image: &[u8],
    map: &[u8],
    buffer: &mut [u8],
) -> SessionStepped
    ensures answer { let a = step_by image.now map.now (length buffer.old)
        (session_meant session) (is_set silent) answer.now in
        result ≡ stepped_answer session (measured a) }
    ensures bytes { let a = step_by image.now map.now (length buffer.old)
        (session_meant session) (is_set silent) answer.now in
        buffer.new ≡ overlay (sent_bytes a) buffer.old }
{
    stepped_answer(
        session,
        stepped(session_meant(session), silent, answer, image, map, buffer),
    )
}

/// A step of either session.
#[tactic(auto, unfolding(events::specs::Events::classify_of))]
pub fn stepped<P: Course>(
    session: State<P>,
    silent: u8,
    answer: &[u8],
    image: &[u8],
    map: &[u8],
    buffer: &mut [u8],
) -> Result<state::Next<P>, Refusal>
    ensures answer { let a = course.step_by P.keeping image.now map.now (length buffer.old)
        session (is_set silent) answer.now in
        paper_stepped result ≡ course.measured a }
    ensures bytes { let a = course.step_by P.keeping image.now map.now (length buffer.old)
        session (is_set silent) answer.now in
        buffer.new ≡ overlay (course.sent_bytes a) buffer.old }
{
    session.step((silent == 0).then_some(answer), image, map, buffer)
}

/// What a start or a step gives, whatever its refusals are; a refusal hands the state back as it came.
// C has a struct of its own for each session, so `plains` has another of these.
pub fn stepped_answer<E: Numbered + Drop>(
    session: SessionState,
    answer: Result<Next, E>,
) -> SessionStepped
    ensures { result ≡ stepped_answer session (answer_of E.number_of (λ x. x) answer) }
{
    match answer {
        Ok(next) => SessionStepped {
            number: 0,
            length: next.len,
            session: session_shown(next.session),
        },
        Err(why) => SessionStepped {
            number: why.number(),
            length: 0,
            session,
        },
    }
}

/// Whether the byte is marked proved. Refused are a session of no board (65), a map whose size is not the board's (20),
/// and a file that is not the session's (46).
#[unsafe(no_mangle)]
pub extern "C" fn gremolunde_session_proved(
    session: SessionState,
    map: &[u8],
    address: u32,
) -> SessionMark
    ensures { result ≡ mark_answer (proved_by map.now (session_meant session) address) }
{
    mark_answer(session_meant(session).proved(map, Address(address)))
}

/// A mark of either session.
pub fn mark_answer(answer: Result<Mark, Refusal>) -> SessionMark
    ensures { result ≡ mark_answer (paper_mark answer) }
{
    match answer {
        Ok(mark) => SessionMark {
            number: 0,
            proved: u8::from(mark == Mark::Proved),
        },
        Err(why) => SessionMark {
            number: why.number(),
            proved: 0,
        },
    }
}

/// How a session ended: 0 valid, 1 verified and held, 40 to 43; 45 where the session is unfinished, its board unknown
/// or its ending not its run kind's.
#[unsafe(no_mangle)]
pub extern "C" fn gremolunde_session_outcome(session: SessionState) -> u32
    ensures { result ≡ logged_outcome_of (session_meant session) }
{
    match logged_outcome(session_meant(session)) {
        Some(outcome) => outcome.number() as u32,
        // C is told 45.
        None => 45,
    }
}
