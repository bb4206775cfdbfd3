// Where a session stands: what it waits for, with the step whose packet is out, or how it ended.
ghost use Rattle.std.specs.Prelude.{◌≡◌, true, ◌+◌, ◌^◌, ◌<◌, ◌≤◌, length};
ghost use Rattle.basis.specs.Board.{pages_of};
ghost use Rattle.basis.specs.Lists.{overlay};
ghost use Rattle.order.specs.Marks.{marked};
ghost use Rattle.packet.specs.Packet.{packet_most};
ghost use Rattle.session.specs.Phases.{reached_of, cursor_of, on_start, after_of};
ghost use Rattle.session.specs.Session.{quick, came_of};
ghost use Rattle.session.specs.Laws.Fits.{fits-ready, fits-few, took-ready};

use basis::board::Board;
use basis::kind::RunKind;
use basis::units::Address;
use course::course::{Course, Load};
use course::state::State;
use events::ending::{Awaited, Outcome};
use order::counts::{before_verify, stands, total};
use order::cursor::{first, follow, place};
use order::sending::send;
use order::step::Step;
use runs::file::File;
use runs::map::Map;
use runs::survey::survey;

/// What a session waits for, or how it ended.
#[derive(Clone, Copy, Debug, PartialEq, Eq)]
pub enum Phase {
    /// It waits for the greeting.
    Greeting,
    /// It waits for the answer to this step's packet.
    Out(Step),
    /// It has ended so.
    Ended(Outcome),
}

impl Phase {
    /// The address that the cursor names: 0 where the phase has none.
    // No `Option`: `cursor_of` gives each phase an address, and the survey of any is asked.
    pub fn cursor(self, board: Board) -> Address
        ensures { result.0 ≡ cursor_of (pages_of board) self }
    {
        match self {
            Phase::Out(step) => place(board, step),
            Phase::Greeting | Phase::Ended(_) => Address(0),
        }
    }

    // Behind the last packet the session ends as was asked.
    fn reached(kind: RunKind, following: Option<Step>) -> Phase
        ensures { result ≡ reached_of kind following }
    {
        match following {
            Some(step) => Phase::Out(step),
            None => Phase::Ended(Outcome::asked(kind)),
        }
    }
}

impl Course for Phase {
    ghost keeping = { quick };

    ghost ready = { λ board m kind phase k. on_start board m phase };

    ghost fits_ready = { fits-ready };

    ghost fits_few = { fits-few };

    ghost took_ready = { took-ready };

    // One pass over the map tells both.
    #[tactic(auto, unfolding(runs::specs::Survey::survey_of))]
    fn load(map: Map<'_>, kind: RunKind) -> Load {
        let all = survey(map, Address(0)).all;
        Load {
            named: all.named,
            total: total(all, kind),
        }
    }

    fn waiting() -> Phase {
        Phase::Greeting
    }

    fn over(outcome: Outcome) -> Phase {
        Phase::Ended(outcome)
    }

    fn ended(self) -> bool {
        matches!(self, Phase::Ended(_))
    }

    fn awaits(self) -> Awaited {
        match self {
            Phase::Greeting => Awaited::Greeting,
            // An ending is never asked: 44 comes first.
            Phase::Out(_) | Phase::Ended(_) => Awaited::Ack,
        }
    }

    // One pass over the map tells.
    #[tactic(auto, using(crate::proofs::Fits::comes))]
    fn comes_from(session: State<Phase>, map: Map<'_>) -> bool
        ensures { result ≡ came_of (pages_of map.entry.board) map.entry.bits.now session }
    {
        let at = session.phase.cursor(map.board);
        if map.board.end() <= at {
            return false;
        }
        let found = survey(map, at);
        if found.all.named == 0 {
            return false;
        }
        if session.named != found.all.named {
            return false;
        }
        if session.total != total(found.all, session.kind) {
            return false;
        }
        match session.phase {
            Phase::Greeting => session.acknowledged == 0,
            Phase::Out(step) => stands(found, session.kind, step, session.acknowledged),
            Phase::Ended(outcome) => outcome.follows(
                Outcome::asked(session.kind),
                session.total,
                session.acknowledged,
            ),
        }
    }

    // The cursor goes on to the next step.
    fn after(session: State<Phase>, map: Map<'_>, _more: u32) -> Phase
        requires ready { on_start (pages_of map.board) map.bits.now session.phase ≡ true }
        ensures { result ≡ after_of (pages_of map.entry.board) map.entry.bits.now session.kind session.phase }
    {
        match session.phase {
            Phase::Greeting => Phase::Out(first(map)),
            Phase::Out(step) => Phase::reached(session.kind, follow(map, session.kind, step)),
            Phase::Ended(outcome) => Phase::Ended(outcome),
        }
    }

    fn send(self, file: File<'_>, kind: RunKind, _k: u32, buffer: &mut [u8]) -> usize {
        match self {
            Phase::Out(step) => send(file, kind, step, buffer),
            Phase::Greeting | Phase::Ended(_) => 0,
        }
    }

    #[tactic(auto, using(crate::proofs::Marks::marks))]
    fn marked(map: Map<'_>, k: u32, address: Address) -> bool {
        if map.board.end() <= address {
            return false;
        }
        if !map.names(address) {
            return false;
        }
        let found = survey(map, address);
        let pieces = found.below.pieces + u32::from(found.piece);
        before_verify(found.all) + pieces <= k
    }
}
