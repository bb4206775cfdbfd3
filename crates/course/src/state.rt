// A session, whatever it keeps of its place in the file: its start, its steps, and what they have proved.
ghost use Rattle.std.specs.Prelude.{◌≡◌, true, ◌+◌, ◌^◌, ◌<◌, ◌≤◌, length};
ghost use Rattle.std.specs.Option.{option_copied};
ghost use Rattle.basis.specs.Board.{pages_of};
ghost use Rattle.basis.specs.Lists.{overlay};
ghost use Rattle.events.specs.Events.{classify_of, silent_in, bytes_in};
ghost use Rattle.events.specs.Paper.{paper_mark};
ghost use Rattle.events.specs.declared.ending.Awaited.{Awaited};
ghost use Rattle.packet.specs.Packet.{packet_most};

use crate::course::Course;
use basis::board::{Board, OPENING};
use basis::kind::RunKind;
use basis::units::Address;
use events::ending::{Awaited, ending};
use events::event::{Event, classify};
use events::refusal::{Mark, Refusal};
use order::sizes::lend;
use runs::file::File;
use runs::map::Map;

/// A session over one file. `board` is its number of pages; `acknowledged` of `total` packets are, at the end too;
/// `named` is how many bytes the file has; `phase` is its place in the file, as the `Course` keeps it.
// `board` is a number: C may hand in any, and 65 answers it.
#[derive(Clone, Copy, Debug, PartialEq, Eq)]
pub struct State<P> {
    pub board: u32,
    pub kind: RunKind,
    pub phase: P,
    pub acknowledged: u32,
    pub total: u32,
    pub named: u32,
}

/// The next state, with how many bytes the packet has that now stands in the buffer; an ending has none.
// A length: the packet stands in the buffer that C lends.
#[derive(Clone, Copy, Debug, PartialEq, Eq)]
pub struct Next<P> {
    pub session: State<P>,
    pub len: usize,
}

impl<P: Course> State<P> {
    ghost use Rattle.course.specs.Course.{measured, sent_bytes, started, moved_of, onward_of, over_of, heard_by, took_of, sent_of, fits_of, step_of, step_by, proved_of, proved_by};
    ghost use Rattle.course.specs.Paper.{paper_stepped};

    /// Writes the byte that opens the board, and waits for its greeting. Refused are sizes that are not the board's or
    /// a buffer shorter than a packet (20), and a map that names no byte (32).
    // Image and map come apart: any may be lent, and 20 answers another size.
    #[tactic(auto, unfolding(basis::specs::Refusals::first, crate::specs::Course::started))]
    pub fn start(
        board: Board,
        kind: RunKind,
        image: &[u8],
        map: &[u8],
        buffer: &mut [u8],
    ) -> Result<Next<P>, Refusal>
        ensures answer { let a = started P.keeping (pages_of board) image.now map.now
            (length buffer.old) kind in
            paper_stepped result ≡ measured a }
        ensures bytes { let a = started P.keeping (pages_of board) image.now map.now
            (length buffer.old) kind in
            buffer.new ≡ overlay (sent_bytes a) buffer.old }
    {
        let file = lend(board, image, map, buffer.len()).ok_or(Refusal::Size)?;
        let load = P::load(file.map, kind);
        if load.named == 0 {
            return Err(Refusal::Empty);
        }
        buffer[0] = OPENING;
        let session = State {
            board: board.pages(),
            kind,
            phase: P::waiting(),
            acknowledged: 0,
            total: load.total,
            named: load.named,
        };
        Ok(Next { session, len: 1 })
    }

    /// Takes one event, an answer's bytes or silence: the next state, and its packet in the buffer. Refused are a
    /// session of no board (65), sizes that are not the board's or a buffer shorter than a packet (20), a session that
    /// has ended (44), and a file that is not the session's (46).
    pub fn step(
        self,
        answer: Option<&[u8]>,
        image: &[u8],
        map: &[u8],
        buffer: &mut [u8],
    ) -> Result<Next<P>, Refusal>
        ensures answer { let h = option_copied answer.entry in
            let a = step_by P.keeping image.now map.now (length buffer.old)
            self (silent_in h) (bytes_in h) in
            paper_stepped result ≡ measured a }
        ensures bytes { let h = option_copied answer.entry in
            let a = step_by P.keeping image.now map.now (length buffer.old)
            self (silent_in h) (bytes_in h) in
            buffer.new ≡ overlay (sent_bytes a) buffer.old }
    {
        let board = Board::of(self.board).ok_or(Refusal::Board)?;
        self.step_on(board, answer, image, map, buffer)
    }

    /// The same on a board that is known; a session of another does not fit (46).
    #[tactic(auto, unfolding(basis::specs::Refusals::first, crate::specs::Course::step_of))]
    pub fn step_on(
        self,
        board: Board,
        answer: Option<&[u8]>,
        image: &[u8],
        map: &[u8],
        buffer: &mut [u8],
    ) -> Result<Next<P>, Refusal>
        ensures answer { let h = option_copied answer.entry in
            let e = classify_of (pages_of board) (silent_in h) (bytes_in h) in
            let a = step_of P.keeping (pages_of board) image.now map.now
            (length buffer.old) self e in
            paper_stepped result ≡ measured a }
        ensures bytes { let h = option_copied answer.entry in
            let e = classify_of (pages_of board) (silent_in h) (bytes_in h) in
            let a = step_of P.keeping (pages_of board) image.now map.now
            (length buffer.old) self e in
            buffer.new ≡ overlay (sent_bytes a) buffer.old }
    {
        let file = lend(board, image, map, buffer.len()).ok_or(Refusal::Size)?;
        if self.phase.ended() {
            return Err(Refusal::Ended);
        }
        if !self.fits(file.map) {
            return Err(Refusal::Foreign);
        }
        let event = classify(board, answer);
        Ok(self.sent(event, file, buffer))
    }

    /// Whether the session has ended: each further step is refused (44).
    pub fn has_ended(self) -> bool
        ensures { result ≡ P.keeping.ended self.phase }
    {
        self.phase.ended()
    }

    /// Whether the byte is marked proved, over the file that the session came from. Refused are a session of no board
    /// (65), a map whose size is not the board's (20), and a file that is not the session's (46).
    pub fn proved(self, map: &[u8], address: Address) -> Result<Mark, Refusal>
        ensures { paper_mark result ≡ proved_by P.keeping map.now self address.0 }
    {
        let board = Board::of(self.board).ok_or(Refusal::Board)?;
        self.proved_on(board, map, address)
    }

    #[tactic(auto, unfolding(basis::specs::Refusals::first, crate::specs::Course::proved_of))]
    fn proved_on(self, board: Board, map: &[u8], address: Address) -> Result<Mark, Refusal>
        ensures { paper_mark result ≡ proved_of P.keeping (pages_of board) map.now self address.0 }
    {
        let map = Map::lend(board, map).ok_or(Refusal::Size)?;
        if !self.fits(map) {
            return Err(Refusal::Foreign);
        }
        if P::marked(map, self.acknowledged, address) {
            return Ok(Mark::Proved);
        }
        Ok(Mark::Unproved)
    }

    // Whether the board is the session's, and some start and events over this file lead here.
    #[tactic(auto, unfolding(crate::specs::Course::fits_of))]
    fn fits(self, map: Map<'_>) -> bool
        ensures { result ≡ fits_of P.keeping (pages_of map.entry.board) map.entry.bits.now self }
    {
        self.board == map.board.pages() && P::comes_from(self, map)
    }

    // An event that is not refused.
    fn sent(self, event: Event, file: File<'_>, buffer: &mut [u8]) -> Next<P>
        requires room { packet_most ≤ length buffer.old }
        requires fits { fits_of P.keeping (pages_of file.map.board) file.map.bits.now self ≡ true }
        ensures session { let m = file.entry.map in
            let a = sent_of P.keeping (pages_of m.board) file.entry.image.now m.bits.now self event in
            result.session ≡ a.session }
        ensures len { let m = file.entry.map in
            let a = sent_of P.keeping (pages_of m.board) file.entry.image.now m.bits.now self event in
            result.len ≡ length a.packet }
        ensures bytes { let m = file.entry.map in
            let a = sent_of P.keeping (pages_of m.board) file.entry.image.now m.bits.now self event in
            buffer.new ≡ overlay a.packet buffer.old }
    {
        let session = self.took(event, file.map);
        let len = session
            .phase
            .send(file, self.kind, session.acknowledged, buffer);
        Next { session, len }
    }

    // The event awaited goes on along the file, and all else ends the session.
    // `ready` and `few` are of session and map together: a struct of both would be made here and taken apart in each
    // function that follows.
    #[tactic(auto, unfolding(crate::specs::Course::took_of))]
    fn took(self, event: Event, map: Map<'_>) -> State<P>
        requires ready { P.ready (pages_of map.board) map.bits.now
            self.kind self.phase self.acknowledged ≡ true }
        requires few { self.acknowledged < 2 ^ 31 }
        ensures { result ≡ took_of P.keeping (pages_of map.entry.board) map.entry.bits.now self event }
    {
        match self.phase.awaits() {
            Awaited::Greeting => self.greeted(event, map),
            Awaited::Ack => self.answered(event, map),
        }
    }

    // The greeting acknowledges no packet. This and `answered` are two, since each let-else names the case awaited.
    fn greeted(self, event: Event, map: Map<'_>) -> State<P>
        requires ready { P.ready (pages_of map.board) map.bits.now
            self.kind self.phase self.acknowledged ≡ true }
        requires few { self.acknowledged < 2 ^ 31 }
        ensures { result ≡ heard_by P.keeping (pages_of map.entry.board) map.entry.bits.now
            self Awaited.Greeting event }
    {
        let Event::Greeting = event else {
            return self.over(Awaited::Greeting, event);
        };
        self.onward(map, 0)
    }

    fn answered(self, event: Event, map: Map<'_>) -> State<P>
        requires ready { P.ready (pages_of map.board) map.bits.now
            self.kind self.phase self.acknowledged ≡ true }
        requires few { self.acknowledged < 2 ^ 31 }
        ensures { result ≡ heard_by P.keeping (pages_of map.entry.board) map.entry.bits.now
            self Awaited.Ack event }
    {
        let Event::Ack = event else {
            return self.over(Awaited::Ack, event);
        };
        self.onward(map, 1)
    }

    fn onward(self, map: Map<'_>, more: u32) -> State<P>
        requires ready { P.ready (pages_of map.board) map.bits.now
            self.kind self.phase self.acknowledged ≡ true }
        requires few { self.acknowledged < 2 ^ 31 }
        requires one { more ≤ 1 }
        ensures { result ≡ onward_of P.keeping (pages_of map.entry.board) map.entry.bits.now self more }
    {
        self.moved(P::after(self, map, more), more)
    }

    fn over(self, awaited: Awaited, event: Event) -> State<P>
        requires { self.acknowledged < 2 ^ 31 }
        ensures { result ≡ over_of P.keeping self awaited event }
    {
        self.moved(P::over(ending(awaited, event)), 0)
    }

    fn moved(self, phase: P, more: u32) -> State<P>
        requires { self.acknowledged + more < 2 ^ 32 }
        ensures { result ≡ moved_of self phase more }
    {
        State {
            phase,
            acknowledged: self.acknowledged + more,
            ..self
        }
    }
}
