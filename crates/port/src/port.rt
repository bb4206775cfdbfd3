// A port feeds its receiver only while its loader serves; else a byte goes to the loader as it comes.
ghost use Rattle.std.specs.Prelude.{◌≡◌, List, ℕ, length};
ghost use Rattle.basis.specs.Board.{pages_of};
ghost use Rattle.port.specs.Port.{serving, unserved, still, brings, through, as_it_comes, port_of, turn_after, Serves};
ghost use Rattle.receiver.specs.Receiver.{bytes_of};

use basis::board::{ANSWER, Board};
use loader::state::{Condition, Loader};
use loader::take::take;
use loader::verdict::Refusal;
use receiver::receiver::Receiver;

/// A loader, and the receiver that its bytes come through.
#[derive(Clone, Copy, Debug, PartialEq, Eq)]
pub struct Port {
    pub loader: Loader,
    pub receiver: Receiver,
}

/// The next port, what the loader said, accepted where it got no input, and how many bytes were taken and answered.
#[derive(Clone, Copy, Debug, PartialEq, Eq)]
pub struct Served {
    pub port: Port,
    pub verdict: Result<(), Refusal>,
    pub taken: usize,
    pub answered: usize,
}

impl Port {
    /// Bytes as they came, up to and with the one that brings the loader an input.
    ///
    /// 20 where flash has not the board's size or `answer` fewer than 24 bytes: no byte is taken, nothing changes.
    /// Else as the loader says, in `flash` and at the start of `answer` as `take` does it.
    // Flash and answer stay two `&mut`: a struct of both would have to give back the same two.
    #[tactic(auto, unfolding(basis::specs::Refusals::first, crate::specs::Port::port_of, crate::specs::Port::turn_of))]
    pub fn serve(self, board: Board, bytes: &[u8], flash: &mut [u8], answer: &mut [u8]) -> Served
        ensures { let f = flash.old in
            let x = port_of (pages_of board) self bytes.now f (length answer.old) in
            Serves (turn_after self f x) answer.old result flash.new answer.new }
    {
        if flash.len() != board.size() {
            return self.wrong_sizes();
        }
        if answer.len() < ANSWER {
            return self.wrong_sizes();
        }
        if self.is_serving() {
            return self.gather(board, bytes, flash, answer);
        }
        self.pass(board, bytes, flash, answer)
    }

    fn is_serving(self) -> bool
        ensures { result ≡ serving self.loader.condition }
    {
        matches!(self.loader.condition, Condition::Serving)
    }

    // No byte is taken.
    fn wrong_sizes(self) -> Served
        ensures { (f a : List ℕ) → Serves (unserved self.loader self.receiver f 20) a result f a }
    {
        Served {
            port: self,
            verdict: Err(Refusal::Size),
            taken: 0,
            answered: 0,
        }
    }

    // While the loader serves: what the receiver hands on goes to the loader.
    fn gather(self, board: Board, bytes: &[u8], flash: &mut [u8], answer: &mut [u8]) -> Served
        ensures { let a = answer.old in
            let x = bytes_of self.receiver bytes.now in
            Serves (through (pages_of board) (length a) self.loader flash.old x) a result flash.new answer.new }
    {
        let stretch = self.receiver.bytes(bytes);
        let next = Port {
            receiver: stretch.receiver,
            ..self
        };
        if stretch.packet == 0 {
            return next.still(stretch.taken);
        }
        let packet = &next.receiver.bytes[..stretch.packet];
        next.bring(board, stretch.taken, packet, flash, answer)
    }

    // While it does not: the first byte goes to the loader as it comes.
    fn pass(self, board: Board, bytes: &[u8], flash: &mut [u8], answer: &mut [u8]) -> Served
        ensures { let a = answer.old in
            let t = as_it_comes (pages_of board) (length a) self.loader self.receiver flash.old bytes.now in
            Serves t a result flash.new answer.new }
    {
        if bytes.len() == 0 {
            return self.still(0);
        }
        let next = Port {
            receiver: self.receiver.emptied(),
            ..self
        };
        next.bring(board, 1, &bytes[..1], flash, answer)
    }

    // The loader gets no input.
    fn still(self, taken: usize) -> Served
        ensures { (f a : List ℕ) → Serves (still self.loader self.receiver f taken) a result f a }
    {
        Served {
            port: self,
            verdict: Ok(()),
            taken,
            answered: 0,
        }
    }

    fn bring(
        self,
        board: Board,
        taken: usize,
        input: &[u8],
        flash: &mut [u8],
        answer: &mut [u8],
    ) -> Served
        ensures { let a = answer.old in
            let t = brings (pages_of board) (length a) self.loader self.receiver flash.old taken input.now in
            Serves t a result flash.new answer.new }
    {
        let told = take(board, self.loader, input, flash, answer);
        Served {
            port: Port {
                loader: told.loader,
                ..self
            },
            verdict: told.verdict,
            taken,
            answered: told.answered,
        }
    }
}
