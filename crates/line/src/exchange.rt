// One exchange: the session's packet goes to the loader or is lost, the answer comes back or is lost.
ghost use Rattle.std.specs.Prelude.{◌≡◌, ◌≤◌, length};
ghost use Rattle.basis.specs.Board.{pages_of};
ghost use Rattle.basis.specs.Units.{start_of};
ghost use Rattle.packet.specs.Packet.{packet_most};
ghost use Rattle.line.specs.Line.{loss_of, loss_at, moment_on, Delivers, Exchanges};

use basis::board::{ANSWER, Board};
use loader::state::Loader;
use loader::take::take;
use packet::build::PACKET;
use runs::file::File;
use session::session::Session;

/// What befalls an exchange.
#[derive(Clone, Copy, Debug, PartialEq, Eq)]
pub enum Loss {
    /// Packet and answer arrive.
    Whole,
    /// The packet is lost.
    Lost,
    /// The packet arrives, and its answer is lost.
    Unanswered,
}

/// One byte tells a loss: 0 is none, 1 the packet's, and all else the answer's.
impl From<u8> for Loss {
    ghost from_gives = { λ byte loss. loss ≡ loss_of byte };

    /// What the byte tells.
    fn from(byte: u8) -> Loss {
        match byte {
            0 => Loss::Whole,
            1 => Loss::Lost,
            _ => Loss::Unanswered,
        }
    }
}

impl Loss {
    /// What befalls exchange `i`. Past the list's end nothing is lost.
    pub fn at(losses: &[u8], i: usize) -> Loss
        ensures { result ≡ loss_at losses.now i }
    {
        Loss::from(losses.get(i).copied().unwrap_or(0))
    }
}

/// Loader and session between two exchanges, with the length of the packet that is out.
// A length: the packet stands in a lent buffer, and there is no heap. No `Load` in it: `moment_on` names loader and
// session as fields of this, and `noisy` has a port in the loader's place.
#[derive(Clone, Copy, Debug, PartialEq, Eq)]
pub struct Link {
    pub loader: Loader,
    pub session: Session,
    pub len: usize,
}

// The loader after a packet, and how many bytes of its answer arrive. No bytes are silence.
#[derive(Clone, Copy, Debug, PartialEq, Eq)]
struct Delivered {
    loader: Loader,
    arrived: usize,
}

/// One exchange over a file: the loader's step, then the session's. No answer is silence.
///
/// Asks for a flash of the board's size. A step that the session refuses
/// leaves session and packet as they were.
pub fn exchange(
    file: File<'_>,
    link: Link,
    loss: Loss,
    flash: &mut [u8],
    packet: &mut [u8; PACKET],
    answer: &mut [u8; ANSWER],
) -> Link
    // No value of flash and its size: over a `&mut` each function would have to give back its name, board and size.
    requires flash { length flash.old ≡ start_of (pages_of file.map.board) }
    requires len { link.len ≤ packet_most }
    ensures { let x = moment_on link flash.old packet.old in
        let f = file.entry in
        Exchanges (pages_of f.map.board) f.image.now f.map.bits.now loss x packet.old
        answer.old result flash.new packet.new answer.new }
{
    let board = file.map.board;
    let sent = &packet[..link.len];
    let Delivered { loader, arrived } = deliver(board, link.loader, loss, sent, flash, answer);
    let came = (arrived != 0).then_some(&answer[..arrived]);
    match link
        .session
        .step_on(board, came, file.image, file.map.bits, packet)
    {
        Ok(next) => Link {
            loader,
            session: next.session,
            len: next.len,
        },
        Err(_) => Link { loader, ..link },
    }
}

// The loader's part of an exchange.
fn deliver(
    board: Board,
    loader: Loader,
    loss: Loss,
    packet: &[u8],
    flash: &mut [u8],
    answer: &mut [u8; ANSWER],
) -> Delivered
    ensures { Delivers (pages_of board) loss loader packet.now flash.old answer.old
        result.loader result.arrived flash.new answer.new }
{
    match loss {
        Loss::Whole => {
            let taken = take(board, loader, packet, flash, answer);
            Delivered {
                loader: taken.loader,
                arrived: taken.answered,
            }
        }
        Loss::Lost => Delivered { loader, arrived: 0 },
        Loss::Unanswered => {
            let taken = take(board, loader, packet, flash, answer);
            Delivered {
                loader: taken.loader,
                arrived: 0,
            }
        }
    }
}
