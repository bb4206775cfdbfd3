// How far a plain session is. It keeps no place in the file: its packets are the list's, picked by number.
ghost use Rattle.std.specs.Prelude.{◌≡◌, true, ◌+◌, ◌^◌, ◌<◌, ◌≤◌, length};
ghost use Rattle.basis.specs.Board.{pages_of};
ghost use Rattle.basis.specs.Lists.{overlay};
ghost use Rattle.order.specs.Marks.{marked};
ghost use Rattle.order.specs.Plan.{total};
ghost use Rattle.packet.specs.Packet.{packet_most};
ghost use Rattle.plain.specs.Laws.Fits.{fits-ready, fits-few, took-ready};
ghost use Rattle.plain.specs.Plain.{by_number, came_of};
ghost use Rattle.plain.specs.Stages.{stage_at, came_at, packet_left};

use crate::list::{bytes, list, named_bytes, pages, with_r};
use crate::sending::send_due;
use basis::kind::RunKind;
use basis::units::Address;
use course::course::{Course, Load};
use course::state::State;
use events::ending::{Awaited, Outcome};
use runs::file::File;
use runs::map::Map;

/// What a plain session waits for, or how it ended.
// Beside the session's `Phase`, which has a step: C and the definitions name the cases of each.
#[derive(Clone, Copy, Debug, PartialEq, Eq)]
pub enum Stage {
    /// It waits for the greeting.
    Waiting,
    /// It waits for the answer to the packet whose number, counted from 0, is how many are acknowledged.
    UnderWay,
    /// It has ended so.
    Ended(Outcome),
}

impl Stage {
    /// Under way while a packet is left; with all of them acknowledged it has ended as was asked.
    pub fn at(kind: RunKind, total: u32, k: u32) -> Stage
        ensures { result ≡ stage_at kind total k }
    {
        if k < total {
            return Stage::UnderWay;
        }
        Stage::Ended(Outcome::asked(kind))
    }

    /// Whether a start and events lead here with `k` of `total` packets acknowledged.
    pub fn came(self, kind: RunKind, total: u32, k: u32) -> bool
        ensures { result ≡ came_at kind total self k }
    {
        match self {
            Stage::Waiting => k == 0,
            Stage::UnderWay => k < total,
            Stage::Ended(outcome) => outcome.follows(Outcome::asked(kind), total, k),
        }
    }
}

impl Course for Stage {
    ghost keeping = { by_number };

    ghost ready = { λ board m kind stage k. packet_left (total board m kind) stage k };

    ghost fits_ready = { fits-ready };

    ghost fits_few = { fits-few };

    ghost took_ready = { took-ready };

    // A file that names no byte is refused (32), so its packets are not listed: R alone is left of them.
    #[tactic(auto, using(crate::proofs::Lists::loads))]
    fn load(map: Map<'_>, kind: RunKind) -> Load {
        let named = named_bytes(map);
        if named == 0 {
            return Load {
                named,
                total: with_r(0, kind),
            };
        }
        Load {
            named,
            total: list(map, kind, 0).total,
        }
    }

    fn waiting() -> Stage {
        Stage::Waiting
    }

    fn over(outcome: Outcome) -> Stage {
        Stage::Ended(outcome)
    }

    fn ended(self) -> bool {
        matches!(self, Stage::Ended(_))
    }

    fn awaits(self) -> Awaited {
        match self {
            Stage::Waiting => Awaited::Greeting,
            // An ending is never asked: 44 comes first.
            Stage::UnderWay | Stage::Ended(_) => Awaited::Ack,
        }
    }

    #[tactic(auto, unfolding(course::specs::Course::came_of))]
    fn comes_from(session: State<Stage>, map: Map<'_>) -> bool
        ensures { result ≡ came_of (pages_of map.entry.board) map.entry.bits.now session }
    {
        let named = named_bytes(map);
        if named == 0 {
            return false;
        }
        if session.named != named {
            return false;
        }
        if session.total != list(map, session.kind, 0).total {
            return false;
        }
        session
            .phase
            .came(session.kind, session.total, session.acknowledged)
    }

    // With so many more acknowledged the next packet is due, or none is left.
    fn after(session: State<Stage>, _map: Map<'_>, more: u32) -> Stage
        requires few { session.acknowledged < 2 ^ 31 }
        requires one { more ≤ 1 }
        ensures { result ≡ stage_at session.kind session.total (session.acknowledged + more) }
    {
        Stage::at(session.kind, session.total, session.acknowledged + more)
    }

    // The packet that is due has the number of how many are acknowledged.
    fn send(self, file: File<'_>, kind: RunKind, k: u32, buffer: &mut [u8]) -> usize {
        match self {
            Stage::UnderWay => send_due(file, kind, k, buffer),
            Stage::Waiting | Stage::Ended(_) => 0,
        }
    }

    // The V of the byte's piece is the last one up to it.
    #[tactic(auto, using(crate::proofs::Lists::marks))]
    fn marked(map: Map<'_>, k: u32, address: Address) -> bool {
        let end = map.board.end();
        if end <= address {
            return false;
        }
        if !map.names(address) {
            return false;
        }
        let erases = pages(map, 0, k);
        let writes = bytes(map, end, erases.number, k);
        let verifies = bytes(map, Address(address.0 + 1), writes.number, k);
        verifies.number <= k
    }
}
