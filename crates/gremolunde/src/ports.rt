// The port for C: a loader behind a receiver, bytes in as they come from the line, answers out.
ghost use Rattle.std.specs.Prelude.{◌≡◌, length};
ghost use Rattle.basis.specs.Board.{pages_of, board_of};
ghost use Rattle.basis.specs.Lists.{overlay};
ghost use Rattle.basis.specs.Refusals.{on_board};
ghost use Rattle.basis.specs.declared.board.Board.{Board};
ghost use Rattle.gremolunde.specs.Answers.{port_answer, port_answer_of};
ghost use Rattle.gremolunde.specs.States.{port_meant};
ghost use Rattle.loader.specs.Paper.{paper_verdict};
ghost use Rattle.port.specs.Port.{port_of, turn_after};

use crate::answers::UNKNOWN_BOARD;
use crate::loading::taken_answer;
use crate::states::{LoaderState, PortState, port_meant};
use basis::board::Board;
use port::port::Served;

/// How many bytes were taken, how many answer bytes were written, and the next state.
#[repr(C)]
#[derive(Clone, Copy)]
pub struct PortTaken {
    pub number: u32,
    pub taken: usize,
    pub answered: usize,
    pub port: PortState,
}

/// Bytes as they came, up to and with the one that brings the loader an input, on a board of so many pages.
///
/// 65 for no board, 20 for a size: no byte is taken. Else as `gremolunde_loader_take`, 0 where the loader got no input.
#[unsafe(no_mangle)]
pub extern "C" fn gremolunde_port_take(
    board: u32,
    port: PortState,
    bytes: &[u8],
    flash: &mut [u8],
    answer: &mut [u8],
) -> PortTaken
    ensures answer { let p = port_meant port in
        let x = on_board (board_of board) (λ (b : Board).
        port_of (pages_of b) p bytes.now flash.old (length answer.old)) in
        result ≡ port_answer port.loader (turn_after p flash.old x) }
    ensures flash { let p = port_meant port in
        let x = on_board (board_of board) (λ (b : Board).
        port_of (pages_of b) p bytes.now flash.old (length answer.old)) in
        flash.new ≡ (turn_after p flash.old x).flash }
    ensures bytes { let p = port_meant port in
        let x = on_board (board_of board) (λ (b : Board).
        port_of (pages_of b) p bytes.now flash.old (length answer.old)) in
        answer.new ≡ overlay (turn_after p flash.old x).answer answer.old }
{
    let Some(known) = Board::of(board) else {
        return PortTaken {
            number: UNKNOWN_BOARD,
            taken: 0,
            answered: 0,
            port,
        };
    };
    port_answer(
        port.loader,
        port_meant(port).serve(known, bytes, flash, answer),
    )
}

// The receiver moves on where the loader refuses what it was handed.
fn port_answer(loader: LoaderState, served: Served) -> PortTaken
    ensures { let v = paper_verdict served.verdict in
        result ≡ port_answer_of loader v served.port served.taken served.answered }
{
    let told = taken_answer(loader, served.verdict, served.port.loader, served.answered);
    PortTaken {
        number: told.number,
        taken: served.taken,
        answered: told.answered,
        port: PortState {
            loader: told.loader,
            receiver: served.port.receiver,
        },
    }
}
