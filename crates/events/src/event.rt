// What comes back from the board, as an event: an answer's bytes, or silence.
ghost use Rattle.std.specs.Prelude.{◌≡◌};
ghost use Rattle.std.specs.Option.{option_copied};
ghost use Rattle.basis.specs.Board.{pages_of};
ghost use Rattle.events.specs.Events.{same_of, greets_of, silent_in, bytes_in, classify_of};

use basis::board::{ACK, ANSWER, BEL, Board};

/// What comes back from the board.
#[derive(Clone, Copy, Debug, PartialEq, Eq)]
pub enum Event {
    /// The board's greeting.
    Greeting,
    /// The single byte 06.
    Ack,
    /// The single byte 07.
    Bel,
    /// Any other bytes, or none.
    Other,
    /// No answer.
    Silence,
}

/// The event that an answer is on the board; where none came it is silence.
#[tactic(auto, unfolding(crate::specs::Events::classify_of))]
pub fn classify(board: Board, answer: Option<&[u8]>) -> Event
    ensures { let a = option_copied answer.entry in
        result ≡ classify_of (pages_of board) (silent_in a) (bytes_in a) }
{
    let Some(bytes) = answer else {
        return Event::Silence;
    };
    if greets(board, bytes) {
        return Event::Greeting;
    }
    if same(bytes, &[ACK]) {
        return Event::Ack;
    }
    if same(bytes, &[BEL]) {
        return Event::Bel;
    }
    Event::Other
}

// Between its first fifteen bytes and its last two a greeting is free; the first fifteen tell the board.
fn greets(board: Board, answer: &[u8]) -> bool
    ensures { result ≡ greets_of (pages_of board) answer.now }
{
    let greeting = board.greeting();
    if answer.len() != ANSWER {
        return false;
    }
    if !same(&answer[..15], &greeting[..15]) {
        return false;
    }
    same(&answer[22..], &greeting[22..])
}

// `==` by itself, told by `same_of`: the three goals of `greets` stay short.
fn same(a: &[u8], b: &[u8]) -> bool
    ensures { result ≡ same_of a.now b.now }
{
    a == b
}
