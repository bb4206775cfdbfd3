// Rehearsals for C: a whole load over a line that loses what it is told to, and one that picks up rubbish too.
ghost use Rattle.std.specs.Prelude.{◌≡◌};
ghost use Rattle.basis.specs.Board.{pages_of, board_of};
ghost use Rattle.basis.specs.Refusals.{on_board};
ghost use Rattle.basis.specs.RunKinds.{kind_of};
ghost use Rattle.basis.specs.declared.board.Board.{Board};
ghost use Rattle.gremolunde.specs.Answers.{rehearsed_answer};
ghost use Rattle.gremolunde.specs.States.{loader_meant};
ghost use Rattle.line.specs.Line.{loss_at, rehearse_of, loaded, left_flash};
ghost use Rattle.line.specs.Paper.{paper_rehearsed};
ghost use Rattle.noisy.specs.Noisy.{rubbish_at, noisy_rehearse_of};

use crate::sessions::no_session;
use crate::states::{LoaderState, SessionState, loader_meant, loader_shown, session_shown};
use basis::board::Board;
use basis::kind::RunKind;
use basis::numbered::Numbered;
use events::refusal::Refusal;
use line::rehearse::{Load, rehearse};

/// Loader and session at the end; a refusal hands the loader back as it came.
#[repr(C)]
#[derive(Clone, Copy)]
pub struct Rehearsal {
    pub number: u32,
    pub loader: LoaderState,
    pub session: SessionState,
}

/// Loads a file into a flash over a line that loses packets and answers: loader and session at the end.
///
/// Byte i of `losses` tells what befalls exchange i: 0 nothing, 1 the packet is lost, all else its answer; past the end
/// nothing. 65 for no board, 20 where flash, image or map has not its size, 32 where the map names nothing.
#[unsafe(no_mangle)]
pub extern "C" fn gremolunde_rehearse(
    board: u32,
    run: u32,
    loader: LoaderState,
    losses: &[u8],
    image: &[u8],
    map: &[u8],
    flash: &mut [u8],
) -> Rehearsal
    ensures answer { let a = on_board (board_of board) (λ (b : Board).
        rehearse_of (pages_of b) image.now map.now (kind_of run) (loader_meant loader)
        (loss_at losses.now) flash.old) in
        result ≡ rehearsed_answer loader (loaded a) }
    ensures flash { let a = on_board (board_of board) (λ (b : Board).
        rehearse_of (pages_of b) image.now map.now (kind_of run) (loader_meant loader)
        (loss_at losses.now) flash.old) in
        flash.new ≡ left_flash flash.old a }
{
    let Some(known) = Board::of(board) else {
        return rehearsed_answer(loader, Err(Refusal::Board));
    };
    let meant = loader_meant(loader);
    let load = rehearse(known, RunKind::of(run), meant, losses, image, map, flash);
    rehearsed_answer(loader, load)
}

/// The same with rubbish on the line: before each exchange come the next `each` bytes of `rubbish`.
#[unsafe(no_mangle)]
pub extern "C" fn gremolunde_rehearse_noisy(
    board: u32,
    run: u32,
    loader: LoaderState,
    losses: &[u8],
    rubbish: &[u8],
    each: usize,
    image: &[u8],
    map: &[u8],
    flash: &mut [u8],
) -> Rehearsal
    ensures answer { let a = on_board (board_of board) (λ (b : Board).
        noisy_rehearse_of (pages_of b) image.now map.now (kind_of run) (loader_meant loader)
        (loss_at losses.now) (rubbish_at rubbish.now each) flash.old) in
        result ≡ rehearsed_answer loader (loaded a) }
    ensures flash { let a = on_board (board_of board) (λ (b : Board).
        noisy_rehearse_of (pages_of b) image.now map.now (kind_of run) (loader_meant loader)
        (loss_at losses.now) (rubbish_at rubbish.now each) flash.old) in
        flash.new ≡ left_flash flash.old a }
{
    let Some(known) = Board::of(board) else {
        return rehearsed_answer(loader, Err(Refusal::Board));
    };
    let kind = RunKind::of(run);
    let meant = loader_meant(loader);
    let load = noisy::rehearse::rehearse(
        known, kind, meant, losses, rubbish, each, image, map, flash,
    );
    rehearsed_answer(loader, load)
}

fn rehearsed_answer(loader: LoaderState, answer: Result<Load, Refusal>) -> Rehearsal
    ensures { result ≡ rehearsed_answer loader (paper_rehearsed answer) }
{
    match answer {
        Ok(load) => Rehearsal {
            number: 0,
            loader: loader_shown(load.loader),
            session: session_shown(load.session),
        },
        Err(why) => Rehearsal {
            number: why.number(),
            loader,
            session: no_session(),
        },
    }
}
