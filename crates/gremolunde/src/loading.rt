// The loader for C.
ghost use Rattle.std.specs.Prelude.{◌≡◌, length};
ghost use Rattle.basis.specs.Board.{pages_of, board_of};
ghost use Rattle.basis.specs.Lists.{overlay};
ghost use Rattle.basis.specs.Refusals.{bare, on_board};
ghost use Rattle.basis.specs.declared.board.Board.{Board};
ghost use Rattle.gremolunde.specs.Answers.{taken_answer};
ghost use Rattle.gremolunde.specs.States.{loader_meant, loader_shown};
ghost use Rattle.loader.specs.Commands.{effect_after};
ghost use Rattle.loader.specs.Paper.{paper_verdict};
ghost use Rattle.loader.specs.State.{factory_of, reset_of};
ghost use Rattle.loader.specs.Take.{take_of, answer_bytes};

use crate::answers::UNKNOWN_BOARD;
use crate::states::{LoaderState, loader_meant, loader_shown};
use basis::board::Board;
use basis::numbered::Numbered;
use loader::state::Loader;
use loader::take::take;
use loader::verdict::Refusal;

/// How many answer bytes were written, and the next state; a refusal hands the state back as it came.
#[repr(C)]
#[derive(Clone, Copy)]
pub struct Taken {
    pub number: u32,
    pub answered: usize,
    pub loader: LoaderState,
}

/// A loader as it leaves the factory: waiting, with nothing protected and no key.
#[unsafe(no_mangle)]
pub extern "C" fn gremolunde_loader_new() -> LoaderState
    ensures { result ≡ loader_shown factory_of }
{
    loader_shown(Loader::factory())
}

/// It waits again; protection and key stay.
#[unsafe(no_mangle)]
pub extern "C" fn gremolunde_loader_reset(loader: LoaderState) -> LoaderState
    ensures { result ≡ loader_shown (reset_of (loader_meant loader)) }
{
    loader_shown(loader_meant(loader).reset())
}

/// One input, the opening byte or a packet, on a board of so many pages. Its answer stands at the start of `answer`.
///
/// 65 for no board, 20 where flash has not the board's size or `answer` under 24 bytes, 11 where the loader does not
/// listen, 1 to 6 for no packet, then 9, 7, 8 and 10 of the command. 65, 20, 11, 1 and 2 are not answered.
#[unsafe(no_mangle)]
pub extern "C" fn gremolunde_loader_take(
    board: u32,
    loader: LoaderState,
    input: &[u8],
    flash: &mut [u8],
    answer: &mut [u8],
) -> Taken
    ensures answer { let l = loader_meant loader in
        let x = on_board (board_of board) (λ (b : Board).
        take_of (pages_of b) l input.now flash.old (length answer.old)) in
        let next = (effect_after l flash.old x).loader in
        result ≡ taken_answer loader (bare x) next (length (answer_bytes board l x)) }
    ensures flash { let l = loader_meant loader in
        let x = on_board (board_of board) (λ (b : Board).
        take_of (pages_of b) l input.now flash.old (length answer.old)) in
        flash.new ≡ (effect_after l flash.old x).flash }
    ensures bytes { let l = loader_meant loader in
        let x = on_board (board_of board) (λ (b : Board).
        take_of (pages_of b) l input.now flash.old (length answer.old)) in
        answer.new ≡ overlay (answer_bytes board l x) answer.old }
{
    let Some(known) = Board::of(board) else {
        return Taken {
            number: UNKNOWN_BOARD,
            answered: 0,
            loader,
        };
    };
    let taken = take(known, loader_meant(loader), input, flash, answer);
    taken_answer(loader, taken.verdict, taken.loader, taken.answered)
}

/// What an input comes to for C: a refusal hands the state back as it came.
pub fn taken_answer(
    loader: LoaderState,
    verdict: Result<(), Refusal>,
    next: Loader,
    answered: usize,
) -> Taken
    ensures { result ≡ taken_answer loader (paper_verdict verdict) next answered }
{
    match verdict {
        Ok(()) => Taken {
            number: 0,
            answered,
            loader: loader_shown(next),
        },
        Err(why) => Taken {
            number: why.number(),
            answered,
            loader,
        },
    }
}
