// The loader's one entry: an input, and what becomes of loader, flash and answer.
ghost use Rattle.std.specs.Prelude.{◌≡◌, ◌≤◌, length};
ghost use Rattle.basis.specs.Board.{pages_of, answer_most};
ghost use Rattle.basis.specs.Lists.{overlay};
ghost use Rattle.basis.specs.Refusals.{refused};
ghost use Rattle.basis.specs.Units.{start_of};
ghost use Rattle.loader.specs.Deeds.{Judges};
ghost use Rattle.loader.specs.Paper.{paper_refusal, paper_verdict};
ghost use Rattle.loader.specs.Take.{waiting, opens_board, serve_of, hear_of, take_of, quiet, tell_of, Takes};

use crate::deed::{Deed, apply};
use crate::judge::judge;
use crate::state::{Condition, Loader};
use crate::verdict::Refusal;
use basis::board::{ACK, ANSWER, BEL, Board, OPENING};
use basis::buffers::write;
use packet::read::read;
use packet::table;

/// The next loader, the verdict, and how many answer bytes were written.
#[derive(Clone, Copy, Debug, PartialEq, Eq)]
pub struct Taken {
    pub loader: Loader,
    pub verdict: Result<(), Refusal>,
    pub answered: usize,
}

/// One input, the opening byte or a packet: what the loader does, and its answer at the start of `answer`.
///
/// An accepted one is answered with ACK, the opening byte with the greeting, a refused one with BEL; 20, 11, 1 and 2
/// are not answered. A refusal leaves loader and flash as they were.
// No struct of board and flash: it would be made for `hear` and taken apart again for `apply`, which writes the flash.
#[tactic(auto, unfolding(basis::specs::Refusals::first, crate::specs::Take::take_of))]
pub fn take(
    board: Board,
    loader: Loader,
    input: &[u8],
    flash: &mut [u8],
    answer: &mut [u8],
) -> Taken
    ensures { let f = flash.old in
        let x = take_of (pages_of board) loader input.now f (length answer.old) in
        Takes (pages_of board) x loader f answer.old (paper_verdict result.verdict) result.loader
        result.answered flash.new answer.new }
{
    if flash.len() != board.size() {
        return wrong_sizes(loader);
    }
    if answer.len() < ANSWER {
        return wrong_sizes(loader);
    }
    match hear(board, loader, input, flash) {
        Ok(deed) => Taken {
            loader: apply(board, deed, loader, input, flash),
            verdict: Ok(()),
            answered: tell(board, is_waiting(loader), Ok(()), answer),
        },
        Err(why) => Taken {
            loader,
            verdict: Err(why),
            answered: tell(board, is_waiting(loader), Err(why), answer),
        },
    }
}

// Not answered, since there may be no room.
fn wrong_sizes(loader: Loader) -> Taken
    ensures loader { result.loader ≡ loader }
    ensures verdict { paper_verdict result.verdict ≡ refused 20 }
    ensures answered { result.answered ≡ 0 }
{
    Taken {
        loader,
        verdict: Err(Refusal::Size),
        answered: 0,
    }
}

fn is_waiting(loader: Loader) -> bool
    ensures { result ≡ waiting loader.condition }
{
    loader.condition == Condition::Waiting
}

// What the condition lets in.
#[tactic(auto, unfolding(basis::specs::Refusals::first, crate::specs::Take::hear_of))]
fn hear(board: Board, loader: Loader, input: &[u8], flash: &[u8]) -> Result<Deed, Refusal>
    requires { length flash.now ≡ start_of (pages_of board) }
    ensures { let s = input.now in let f = flash.now in
        Judges (pages_of board) result loader s f (hear_of (pages_of board) loader s f) }
{
    match loader.condition {
        Condition::Waiting => {
            if !opens_board(input) {
                return Err(Refusal::Unheard);
            }
            Ok(Deed::Serve)
        }
        Condition::Serving => serve(board, loader, input, flash),
        Condition::Left => Err(Refusal::Unheard),
    }
}

fn opens_board(input: &[u8]) -> bool
    ensures { result ≡ opens_board input.now }
{
    input.len() == 1 && input[0] == OPENING
}

fn serve(board: Board, loader: Loader, input: &[u8], flash: &[u8]) -> Result<Deed, Refusal>
    requires { length flash.now ≡ start_of (pages_of board) }
    ensures { let s = input.now in let f = flash.now in
        Judges (pages_of board) result loader s f (serve_of (pages_of board) loader s f) }
{
    let packet = read(input)?;
    let end = packet.at + packet.len;
    judge(board, loader, packet, &input[packet.at..end], flash)
}

// The answer bytes of a verdict, and how many.
fn tell(board: Board, waiting: bool, verdict: Result<(), Refusal>, answer: &mut [u8]) -> usize
    requires { answer_most ≤ length answer.old }
    ensures count { result ≡ length (tell_of (pages_of board) waiting (paper_verdict verdict)) }
    ensures bytes { let told = tell_of (pages_of board) waiting (paper_verdict verdict) in
        answer.new ≡ overlay told answer.old }
{
    match verdict {
        Ok(()) => {
            if waiting {
                write(answer, &board.greeting());
                return ANSWER;
            }
            answer[0] = ACK;
            1
        }
        Err(why) => {
            if is_quiet(why) {
                return 0;
            }
            answer[0] = BEL;
            1
        }
    }
}

// The refusals that are not answered.
fn is_quiet(why: Refusal) -> bool
    ensures { result ≡ quiet (paper_refusal why) }
{
    matches!(
        why,
        Refusal::Size
            | Refusal::Unheard
            | Refusal::Unread(table::Refusal::Start | table::Refusal::Length)
    )
}
