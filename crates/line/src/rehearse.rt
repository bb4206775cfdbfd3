// A whole load of a file into a flash, over a line that loses what it is told to.
ghost use Rattle.std.specs.Prelude.{◌≡◌, ◌+◌, ◌<◌, ◌≤◌, length};
ghost use Rattle.basis.specs.Board.{pages_of};
ghost use Rattle.basis.specs.Lists.{Bytes};
ghost use Rattle.basis.specs.Units.{start_of};
ghost use Rattle.order.specs.Plan.{total};
ghost use Rattle.packet.specs.Packet.{packet_most};
ghost use Rattle.line.specs.Line.{begun, moment_at, loss_at, rehearse_of, moment_on, Rehearses};
ghost use Rattle.line.specs.Paper.{paper_rehearsed};
ghost use Rattle.runs.specs.Pieces.{named_count};

use crate::exchange::{Link, Loss, exchange};
use basis::board::{ANSWER, Board};
use basis::kind::RunKind;
use events::refusal::Refusal;
use loader::state::Loader;
use packet::build::PACKET;
use runs::file::File;
use session::session::Session;

/// Loader and session at the end.
// No `Link` without its length: at the end no packet is out, and `paper_rehearsed` gives these two.
#[derive(Clone, Copy, Debug, PartialEq, Eq)]
pub struct Load {
    pub loader: Loader,
    pub session: Session,
}

/// Loads a file into a flash: loader and session at the end, which a session always reaches.
///
/// Each byte of `losses` tells what befalls one exchange; past its end everything arrives. 20 where flash, image or
/// map has not the board's size, 32 where the map names nothing: flash stays as it was.
// Image and map come apart: any may be lent, and 20 answers another size.
// `line` and `noisy` are no one generic function: a receiver and rubbish stand in one alone, and the relations that
// their loops keep, `Exchanges` and `NoisyExchanges`, differ in more than a type.
pub fn rehearse(
    board: Board,
    kind: RunKind,
    loader: Loader,
    losses: &[u8],
    image: &[u8],
    map: &[u8],
    flash: &mut [u8],
) -> Result<Load, Refusal>
    ensures { let x = rehearse_of (pages_of board) image.now map.now kind loader
        (loss_at losses.now) flash.old in
        Rehearses x flash.old (paper_rehearsed result) flash.new }
{
    if flash.len() != board.size() {
        return Err(Refusal::Size);
    }
    let Some(file) = File::lend(board, image, map) else {
        return Err(Refusal::Size);
    };
    let mut packet = [0; PACKET];
    let mut answer = [0; ANSWER];
    begin(file, kind, loader, losses, flash, &mut packet, &mut answer)
}

// Starts the session and drives it. `packet` and `answer` are scratch, so nothing is promised of them.
fn begin(
    file: File<'_>,
    kind: RunKind,
    loader: Loader,
    losses: &[u8],
    flash: &mut [u8],
    packet: &mut [u8; PACKET],
    answer: &mut [u8; ANSWER],
) -> Result<Load, Refusal>
    requires bytes { Bytes file.image.now }
    requires flash { length flash.old ≡ start_of (pages_of file.map.board) }
    ensures { let f = file.entry in
        let x = rehearse_of (pages_of f.map.board) f.image.now f.map.bits.now kind loader
        (loss_at losses.now) flash.old in
        Rehearses x flash.old (paper_rehearsed result) flash.new }
{
    let next = Session::start(file.map.board, kind, file.image, file.map.bits, packet)?;
    let first = Link {
        loader: loader.reset(),
        session: next.session,
        len: next.len,
    };
    let last = drive(file, first, losses, flash, packet, answer);
    Ok(Load {
        loader: last.loader,
        session: last.session,
    })
}

// Exchanges until the session has ended. `packet` holds the opening byte; then it and `answer` are scratch.
fn drive(
    file: File<'_>,
    first: Link,
    losses: &[u8],
    flash: &mut [u8],
    packet: &mut [u8; PACKET],
    answer: &mut [u8; ANSWER],
) -> Link
    requires bytes { Bytes file.image.now }
    requires some { 0 < named_count (pages_of file.map.board) file.map.bits.now }
    requires flash { length flash.old ≡ start_of (pages_of file.map.board) }
    requires len { first.len ≤ packet_most }
    requires begun { moment_on first flash.old packet.old
        ≡ begun (pages_of file.map.board) file.map.bits.now first.session.kind first.loader flash.old }
    ensures { let f = file.entry in
        let start = moment_on first flash.old packet.old in
        let x = moment_at (pages_of f.map.board) f.image.now f.map.bits.now
        (loss_at losses.now) start (total (pages_of f.map.board) f.map.bits.now first.session.kind + 1) in
        (result.loader ≡ x.loader) × (result.session ≡ x.session) × (flash.new ≡ x.flash) }
{
    let mut link = first;
    let mut i = 0;
    // No `for`: the session tells the end, which no list has.
    while !link.session.has_ended() {
        link = exchange(file, link, Loss::at(losses, i), flash, packet, answer);
        i += 1;
    }
    link
}
