// What a session keeps of its place in the file, and what it makes of it.
use crate::state::State;
use basis::kind::RunKind;
use basis::units::Address;
use events::ending::{Awaited, Outcome};
use runs::file::File;
use runs::map::Map;

/// How much there is to load: the file's bytes, and the packets that a run kind makes of them.
#[derive(Clone, Copy, Debug, PartialEq, Eq)]
pub struct Load {
    pub named: u32,
    pub total: u32,
}

/// What a session keeps of its place in the file. All else of a session is the same for each.
pub trait Course: Copy {
    ghost use Rattle.std.specs.Prelude.{◌≡◌, true, ◌+◌, ◌^◌, ◌<◌, ◌≤◌, ℕ, Bool, List, length};
    ghost use Rattle.basis.specs.Board.{pages_of};
    ghost use Rattle.basis.specs.Lists.{overlay};
    ghost use Rattle.basis.specs.Units.{map_bytes};
    ghost use Rattle.basis.specs.declared.board.Board.{Board};
    ghost use Rattle.basis.specs.declared.kind.RunKind.{RunKind};
    ghost use Rattle.course.specs.Course.{Keeping, came_of, took_of, fits_of};
    ghost use Rattle.course.specs.declared.state.State.{State};
    ghost use Rattle.events.specs.declared.event.Event.{Event};
    ghost use Rattle.order.specs.Marks.{marked};
    ghost use Rattle.order.specs.Plan.{total};
    ghost use Rattle.packet.specs.Packet.{packet_most};
    ghost use Rattle.runs.specs.Pieces.{named_count};

    ghost keeping: { Keeping Self };

    // Whether the place sends its packet and goes on along the file, with so many packets acknowledged.
    ghost ready: { ℕ → List ℕ → RunKind → Self → ℕ → Bool };

    /// How many bytes the file names, and how many packets it has.
    fn load(map: Map<'_>, kind: RunKind) -> Load
        ensures named { result.named ≡ named_count (pages_of map.entry.board) map.entry.bits.now }
        ensures total { result.total ≡ total (pages_of map.entry.board) map.entry.bits.now kind };

    /// Where the greeting is awaited.
    fn waiting() -> Self
        ensures { result ≡ keeping.waiting };

    /// Where a session stands that has ended so.
    fn over(outcome: Outcome) -> Self
        ensures { result ≡ keeping.over outcome };

    /// Whether the session has ended.
    fn ended(self) -> bool
        ensures { result ≡ keeping.ended self };

    /// What is awaited: first the greeting, later an acknowledgement.
    fn awaits(self) -> Awaited
        ensures { result ≡ keeping.awaits self };

    /// Whether the session comes from a start and events over the map's file, whatever board it carries.
    fn comes_from(session: State<Self>, map: Map<'_>) -> bool
        ensures { result ≡ came_of keeping (pages_of map.entry.board) map.entry.bits.now session };

    /// Where the session stands once the right answer has come, which acknowledges so many packets more: the greeting
    /// none, ACK one.
    // 0 or 1 and no `Awaited`: it is added to what is acknowledged.
    fn after(session: State<Self>, map: Map<'_>, more: u32) -> Self
        requires ready { ready (pages_of map.board) map.bits.now
            session.kind session.phase session.acknowledged ≡ true }
        requires few { session.acknowledged < 2 ^ 31 }
        requires one { more ≤ 1 }
        ensures { result ≡ keeping.after (pages_of map.entry.board) map.entry.bits.now session more };

    /// Writes the packet that is out with `k` packets acknowledged, and gives its length in bytes: none while the
    /// greeting is awaited, and an ending sends none.
    fn send(self, file: File<'_>, kind: RunKind, k: u32, buffer: &mut [u8]) -> usize
        requires room { packet_most ≤ length buffer.old }
        requires ready { ready (pages_of file.map.board) file.map.bits.now kind self k ≡ true }
        ensures len { let m = file.entry.map in
            let p = keeping.out (pages_of m.board) file.entry.image.now m.bits.now kind self k in
            result ≡ length p }
        ensures bytes { let m = file.entry.map in
            let p = keeping.out (pages_of m.board) file.entry.image.now m.bits.now kind self k in
            buffer.new ≡ overlay p buffer.old };

    /// Whether the byte is marked after `k` acknowledgements: the V of its piece is among them.
    fn marked(map: Map<'_>, k: u32, address: Address) -> bool
        ensures { result ≡ marked (pages_of map.entry.board) map.entry.bits.now k address.0 };

    // A session that fits a file is ready, before and after an event, and has room for one acknowledgement more.
    ghost fits_ready: { (b : Board) (m : List ℕ) (s : State Self) → length m ≡ map_bytes (pages_of b)
        → fits_of keeping (pages_of b) m s ≡ true
        → ready (pages_of b) m s.kind s.phase s.acknowledged ≡ true };

    ghost fits_few: { (b : Board) (m : List ℕ) (s : State Self) → length m ≡ map_bytes (pages_of b)
        → fits_of keeping (pages_of b) m s ≡ true → s.acknowledged < 2 ^ 31 };

    ghost took_ready: { (b : Board) (m : List ℕ) (s : State Self) (e : Event)
        → length m ≡ map_bytes (pages_of b) → fits_of keeping (pages_of b) m s ≡ true
        → (let t = took_of keeping (pages_of b) m s e in
        ready (pages_of b) m s.kind t.phase t.acknowledged ≡ true) };
}
