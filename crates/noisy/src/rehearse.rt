// A whole load of a file into a flash, over a line that loses what it is told to and picks up rubbish.
ghost use Rattle.std.specs.Prelude.{◌≡◌, ◌+◌, ◌<◌, ◌≤◌, length};
ghost use Rattle.basis.specs.Board.{pages_of};
ghost use Rattle.basis.specs.Units.{start_of};
ghost use Rattle.line.specs.Line.{loss_at, Rehearses};
ghost use Rattle.line.specs.Paper.{paper_rehearsed};
ghost use Rattle.noisy.specs.Noisy.{begun_noisy, noisy_at, rubbish_at, noisy_rehearse_of, noisy_on};
ghost use Rattle.order.specs.Plan.{total};
ghost use Rattle.packet.specs.Packet.{packet_most};
ghost use Rattle.runs.specs.Pieces.{named_count};

use crate::exchange::{HEARD, Link, exchange};
use basis::board::{ANSWER, Board};
use basis::buffers::first;
use basis::kind::RunKind;
use events::refusal::Refusal;
use line::exchange::Loss;
use line::rehearse::Load;
use loader::state::Loader;
use packet::build::PACKET;
use port::port::Port;
use receiver::receiver::Receiver;
use runs::file::File;
use session::session::Session;

/// Loads a file into a flash: loader and session at the end, which a session always reaches.
///
/// Each byte of `losses` tells what befalls one exchange; past its end everything arrives. Before each exchange come
/// the next `each` bytes of `rubbish`, and past its end none. 20 where flash, image or map has not the board's size,
/// 32 where the map names nothing: flash stays as it was.
// No generic with `line`'s: see there. Image and map come apart: any may be lent, and 20 answers another size.
pub fn rehearse(
    board: Board,
    kind: RunKind,
    loader: Loader,
    losses: &[u8],
    rubbish: &[u8],
    each: usize,
    image: &[u8],
    map: &[u8],
    flash: &mut [u8],
) -> Result<Load, Refusal>
    ensures { let x = noisy_rehearse_of (pages_of board) image.now map.now kind loader
        (loss_at losses.now) (rubbish_at rubbish.now each) flash.old in
        Rehearses x flash.old (paper_rehearsed result) flash.new }
{
    if flash.len() != board.size() {
        return Err(Refusal::Size);
    }
    let Some(file) = File::lend(board, image, map) else {
        return Err(Refusal::Size);
    };
    let mut packet = [0; PACKET];
    let mut answer = [0; ANSWER];
    let mut joined = [0; HEARD];
    begin(
        file,
        kind,
        loader,
        losses,
        rubbish,
        each,
        flash,
        &mut packet,
        &mut answer,
        &mut joined,
    )
}

// Starts the session and drives it. `packet`, `answer` and `joined` are scratch, so nothing is promised of them.
// `losses`, `rubbish` and `each` stay three: `noisy_at` is told of losses and of rubbish apart, and a struct of them
// would be made in `rehearse` for `begin` and `drive` alone. Flash has its size as in `exchange`.
fn begin(
    file: File<'_>,
    kind: RunKind,
    loader: Loader,
    losses: &[u8],
    rubbish: &[u8],
    each: usize,
    flash: &mut [u8],
    packet: &mut [u8; PACKET],
    answer: &mut [u8; ANSWER],
    joined: &mut [u8; HEARD],
) -> Result<Load, Refusal>
    requires { length flash.old ≡ start_of (pages_of file.map.board) }
    ensures { let f = file.entry in
        let x = noisy_rehearse_of (pages_of f.map.board) f.image.now f.map.bits.now kind loader
        (loss_at losses.now) (rubbish_at rubbish.now each) flash.old in
        Rehearses x flash.old (paper_rehearsed result) flash.new }
{
    let next = Session::start(file.map.board, kind, file.image, file.map.bits, packet)?;
    let port = Port {
        loader: loader.reset(),
        receiver: Receiver::new(),
    };
    let start = Link {
        port,
        session: next.session,
        len: next.len,
    };
    let last = drive(
        file, start, losses, rubbish, each, flash, packet, answer, joined,
    );
    Ok(Load {
        loader: last.port.loader,
        session: last.session,
    })
}

// Exchanges until the session has ended. `packet` holds the opening byte; then it and the others are scratch.
fn drive(
    file: File<'_>,
    start: Link,
    losses: &[u8],
    rubbish: &[u8],
    each: usize,
    flash: &mut [u8],
    packet: &mut [u8; PACKET],
    answer: &mut [u8; ANSWER],
    joined: &mut [u8; HEARD],
) -> Link
    requires some { 0 < named_count (pages_of file.map.board) file.map.bits.now }
    requires flash { length flash.old ≡ start_of (pages_of file.map.board) }
    requires len { start.len ≤ packet_most }
    requires begun { noisy_on start flash.old packet.old
        ≡ begun_noisy (pages_of file.map.board) file.map.bits.now start.session.kind start.port.loader
        flash.old }
    ensures { let f = file.entry in
        let x = noisy_at (pages_of f.map.board) f.image.now f.map.bits.now (loss_at losses.now)
        (rubbish_at rubbish.now each) (noisy_on start flash.old packet.old)
        (total (pages_of f.map.board) f.map.bits.now start.session.kind + 1) in
        (result.port ≡ x.port) × (result.session ≡ x.session) × (flash.new ≡ x.flash) }
{
    let mut link = start;
    let mut i = 0;
    let mut rest = rubbish;
    // No `for`: the session tells the end, which no list has.
    while !link.session.has_ended() {
        let loss = Loss::at(losses, i);
        let now = first(rest, each);
        link = exchange(file, link, loss, now, flash, packet, answer, joined);
        rest = &rest[now.len()..];
        i += 1;
    }
    link
}
