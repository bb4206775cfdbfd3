// One exchange with rubbish before it: the board takes both behind its receiver, the session hears all answers as one.
ghost use Rattle.std.specs.Prelude.{◌≡◌, [], ◌++◌, ◌≤◌, length, take};
ghost use Rattle.basis.specs.Board.{answer_most, pages_of};
ghost use Rattle.basis.specs.Lists.{overlay};
ghost use Rattle.basis.specs.Units.{start_of};
ghost use Rattle.line.specs.Line.{event_from};
ghost use Rattle.noisy.specs.Noisy.{reaching, hearing, heard_most, noisy_on, Joins, next_after, NoisyExchanges};
ghost use Rattle.packet.specs.Packet.{packet_most};
ghost use Rattle.port.specs.Port.{all_of};
ghost use Rattle.session.specs.Session.{sent_bytes, step_of};

use basis::board::{ANSWER, Board};
use basis::buffers::{copy, first};
use line::exchange::Loss;
use packet::build::PACKET;
use port::port::Port;
use runs::file::File;
use session::session::{Next, Session};

/// So many bytes of answers tell every event.
pub const HEARD: usize = ANSWER + 1;

/// Port and session between two exchanges, with the length of the packet that is out.
// A length: the packet stands in a lent buffer, and there is no heap.
#[derive(Clone, Copy, Debug, PartialEq, Eq)]
pub struct Link {
    pub port: Port,
    pub session: Session,
    pub len: usize,
}

// The port after some bytes, and how many bytes of answers are joined; none are silence.
// A length beside the lent bytes: there is no heap below the programs.
#[derive(Clone, Copy, Debug, PartialEq, Eq)]
struct Fed {
    port: Port,
    heard: usize,
}

/// One exchange over a file: the board takes the rubbish and what the session has sent, and the session steps on all
/// answers joined. No answer is silence.
///
/// Asks for a flash of the board's size. `answer` and `joined` are scratch, and so is `packet` behind the packet.
// Four buffers and no struct: `deliver` reads the packet and writes the other three, so over a `&mut` of all four it
// would have to promise that the packet stays. No value of flash and its size, as in `line`.
pub fn exchange(
    file: File<'_>,
    link: Link,
    loss: Loss,
    rubbish: &[u8],
    flash: &mut [u8],
    packet: &mut [u8; PACKET],
    answer: &mut [u8; ANSWER],
    joined: &mut [u8; HEARD],
) -> Link
    requires flash { length flash.old ≡ start_of (pages_of file.map.board) }
    requires len { link.len ≤ packet_most }
    ensures { let x = noisy_on link flash.old packet.old in
        let f = file.entry in
        NoisyExchanges (pages_of f.map.board) f.image.now f.map.bits.now loss rubbish.now x result
        flash.new packet.new }
{
    let sent = &packet[..link.len];
    let fed = deliver(
        file.map.board,
        link.port,
        loss,
        rubbish,
        sent,
        flash,
        answer,
        joined,
    );
    let next = hear(file, link.session, link.len, &joined[..fed.heard], packet);
    Link {
        port: fed.port,
        session: next.session,
        len: next.len,
    }
}

// The board's part: the rubbish, and what the session has sent if it arrives.
fn deliver(
    board: Board,
    port: Port,
    loss: Loss,
    rubbish: &[u8],
    packet: &[u8],
    flash: &mut [u8],
    answer: &mut [u8; ANSWER],
    joined: &mut [u8; HEARD],
) -> Fed
    requires { length flash.old ≡ start_of (pages_of board) }
    ensures { let a = all_of (pages_of board) answer_most port flash.old
        (reaching loss rubbish.now packet.now) in
        Joins (hearing loss a) [] result.port result.heard flash.new joined.new }
{
    let start = feed(
        board,
        Fed { port, heard: 0 },
        rubbish,
        flash,
        answer,
        joined,
    );
    match loss {
        Loss::Whole => feed(board, start, packet, flash, answer, joined),
        Loss::Lost => start,
        Loss::Unanswered => {
            let last = feed(board, start, packet, flash, answer, joined);
            Fed { heard: 0, ..last }
        }
    }
}

// All bytes go in, and their answers are joined behind those that are heard already.
fn feed(
    board: Board,
    start: Fed,
    bytes: &[u8],
    flash: &mut [u8],
    answer: &mut [u8; ANSWER],
    joined: &mut [u8; HEARD],
) -> Fed
    requires flash { length flash.old ≡ start_of (pages_of board) }
    requires heard { start.heard ≤ heard_most }
    ensures { Joins (all_of (pages_of board) answer_most start.port flash.old bytes.now)
        (take start.heard joined.old) result.port result.heard flash.new joined.new }
{
    let mut fed = start;
    let mut rest = bytes;
    // No `for`: the port tells how many bytes it takes.
    while !rest.is_empty() {
        let served = fed.port.serve(board, rest, flash, answer);
        fed = Fed {
            port: served.port,
            heard: join(joined, fed.heard, &answer[..served.answered]),
        };
        rest = &rest[served.taken..];
    }
    fed
}

// What has no room is dropped.
fn join(joined: &mut [u8], heard: usize, answer: &[u8]) -> usize
    requires { heard ≤ length joined.old }
    ensures fits { result ≤ length joined.old }
    ensures bytes { take result joined.new ≡ take (length joined.old) (take heard joined.old ++ answer.now) }
{
    let more = first(answer, joined.len() - heard);
    copy(joined, heard, more);
    heard + more.len()
}

// The session's part: its next step, or as it was.
#[tactic(auto, unfolding(events::specs::Events::classify_of))]
fn hear(file: File<'_>, session: Session, len: usize, answer: &[u8], packet: &mut [u8]) -> Next
    ensures next { let f = file.entry in
        let b = pages_of f.map.board in
        let a = step_of b f.image.now f.map.bits.now (length packet.old) session (event_from b answer.now) in
        result ≡ next_after session len a }
    ensures packet { let f = file.entry in
        let b = pages_of f.map.board in
        let a = step_of b f.image.now f.map.bits.now (length packet.old) session (event_from b answer.now) in
        packet.new ≡ overlay (sent_bytes a) packet.old }
{
    let came = (!answer.is_empty()).then_some(answer);
    match session.step_on(file.map.board, came, file.image, file.map.bits, packet) {
        Ok(next) => next,
        Err(_) => Next { session, len },
    }
}
