// The states that a C caller keeps, and what each stands for.
// No `From`: contracts of the exports say `.._meant` and `.._shown` by these names, and a `From` would say them once
// more; a hex reader is shown with its board besides.
ghost use Rattle.std.specs.Prelude.{◌≡◌};
ghost use Rattle.gremolunde.specs.States.{condition_meant, loader_meant, loader_shown, port_meant, hex_meant, hex_shown, nowhere, outcome_meant, end_meant, phase_meant, session_meant, session_shown, stage_meant, stage_shown, ending_shown, listed, plain_at, plain_meant, plain_shown, station_meant, station_shown};

use basis::kind::RunKind;
use basis::units::{Address, Page};
use events::ending::Outcome;
use image::hex::Hex;
use loader::protection::Protection;
use loader::state::{Condition, Loader, Sequence};
use order::step::Step;
use plain::plain::Plain;
use plain::stage::Stage;
use port::port::Port;
use receiver::receiver::Receiver;
use session::phase::Phase;
use session::session::Session;
use stations::station::Station;

/// A loader. `condition` is 0 waiting, 1 serving, 2 left; what else it may be counts as left. `groups` and `read` are
/// protected, `added` and `added_read` are only added yet, by a sequence that is `opened`; a flag is false at 0 alone.
#[repr(C)]
#[derive(Clone, Copy)]
pub struct LoaderState {
    pub groups: u64,
    pub added: u64,
    pub key: u32,
    pub condition: u8,
    pub read: u8,
    pub opened: u8,
    pub added_read: u8,
}

/// A loader on its line, with the bytes that have come of a packet.
#[repr(C)]
#[derive(Clone, Copy)]
pub struct PortState {
    pub loader: LoaderState,
    pub receiver: Receiver,
}

/// A hex reader. `board` is its number of pages, `rules` the number of its rule set.
#[repr(C)]
#[derive(Clone, Copy, Default)]
pub struct HexState {
    pub board: u32,
    pub rules: u32,
    pub linear: u32,
    pub segment: u32,
    pub segmented: u8,
    pub ended: u8,
    pub taken: u8,
}

/// A session. `board` is its number of pages, `run` the run kind: 0 reset, 1 jump, 2 hold, all else is the default,
/// hold. `phase` is 0 for the greeting, 1 to 4 for E, W, V and R, 5 for an end; E uses `page`, W and V `address`, an
/// end `outcome`, and a field that the phase does not use is 0.
#[repr(C)]
#[derive(Clone, Copy, Default)]
pub struct SessionState {
    pub board: u32,
    pub run: u32,
    pub phase: u32,
    pub page: u32,
    pub address: u32,
    pub outcome: u32,
    pub acknowledged: u32,
    pub total: u32,
    pub named: u32,
}

/// A plain session. `board` and `run` are as a session has them. `stage` is 0 waiting for the greeting, 1 under way,
/// 2 an end by `outcome`, which is 0 before.
#[repr(C)]
#[derive(Clone, Copy, Default)]
pub struct PlainState {
    pub board: u32,
    pub run: u32,
    pub stage: u32,
    pub outcome: u32,
    pub acknowledged: u32,
    pub total: u32,
    pub named: u32,
}

/// A station's settings. `station` is its number; any value of a field may stand here, and what is out of range is
/// refused.
#[repr(C)]
#[derive(Clone, Copy, Default)]
pub struct StationState {
    pub version: u32,
    pub station: u32,
    pub run: u32,
    pub rules: u32,
    pub first: u32,
    pub last: u32,
}

/// The loader that C's fields stand for: any value of any field stands for something.
pub fn loader_meant(state: LoaderState) -> Loader
    ensures { result ≡ loader_meant state }
{
    let added = Protection {
        groups: state.added,
        read: state.added_read != 0,
    };
    let in_force = Protection {
        groups: state.groups,
        read: state.read != 0,
    };
    Loader {
        condition: condition_meant(state.condition),
        sequence: Sequence {
            opened: state.opened != 0,
            added,
        },
        protection: in_force,
        key: state.key,
    }
}

fn condition_meant(number: u8) -> Condition
    ensures { result ≡ condition_meant number }
{
    match number {
        0 => Condition::Waiting,
        1 => Condition::Serving,
        _ => Condition::Left,
    }
}

/// A loader's fields for C; a flag is 0 or 1.
pub fn loader_shown(loader: Loader) -> LoaderState
    ensures { result ≡ loader_shown loader }
{
    LoaderState {
        groups: loader.protection.groups,
        added: loader.sequence.added.groups,
        key: loader.key,
        condition: loader.condition as u8,
        read: u8::from(loader.protection.read),
        opened: u8::from(loader.sequence.opened),
        added_read: u8::from(loader.sequence.added.read),
    }
}

/// The port that C's fields stand for.
pub fn port_meant(state: PortState) -> Port
    ensures { result ≡ port_meant state }
{
    Port {
        loader: loader_meant(state.loader),
        receiver: state.receiver,
    }
}

/// The hex reader that C's fields stand for; its board stands beside it.
pub fn hex_meant(state: HexState) -> Hex
    ensures { result ≡ hex_meant state }
{
    Hex {
        rules: state.rules,
        linear: state.linear,
        segment: state.segment,
        segmented: state.segmented != 0,
        ended: state.ended != 0,
        taken: state.taken != 0,
    }
}

/// A hex reader's fields for C, with the board that it reads for.
pub fn hex_shown(board: u32, reader: Hex) -> HexState
    ensures { result ≡ hex_shown board reader }
{
    HexState {
        board,
        rules: reader.rules,
        linear: reader.linear,
        segment: reader.segment,
        segmented: u8::from(reader.segmented),
        ended: u8::from(reader.ended),
        taken: u8::from(reader.taken),
    }
}

/// The session that C's fields stand for; where no start leads to such fields, one that fits no file.
pub fn session_meant(state: SessionState) -> Session
    ensures { result ≡ session_meant state }
{
    Session {
        board: state.board,
        kind: RunKind::of(state.run),
        phase: phase_meant(state),
        acknowledged: state.acknowledged,
        total: state.total,
        named: state.named,
    }
}

// No start leads to a session with a value in a field that its phase does not use.
fn phase_meant(state: SessionState) -> Phase
    ensures { result ≡ phase_meant state.phase state.page state.address state.outcome }
{
    match (state.phase, state.page, state.address, state.outcome) {
        (0, 0, 0, 0) => Phase::Greeting,
        (1, page, 0, 0) => Phase::Out(Step::Erase(Page(page))),
        (2, 0, address, 0) => Phase::Out(Step::Write(Address(address))),
        (3, 0, address, 0) => Phase::Out(Step::Verify(Address(address))),
        (4, 0, 0, 0) => Phase::Out(Step::Run),
        (5, 0, 0, outcome) => end_meant(outcome),
        _ => nowhere(),
    }
}

fn end_meant(outcome: u32) -> Phase
    ensures { result ≡ end_meant outcome }
{
    let meant = outcome_meant(outcome);
    if u32::from(meant.number()) != outcome {
        return nowhere();
    }
    Phase::Ended(meant)
}

// One that is not listed is taken for `Other`, whose number is another, as the definition has it: so no `Option`.
fn outcome_meant(number: u32) -> Outcome
    ensures { result ≡ outcome_meant number }
{
    match number {
        0 => Outcome::Valid,
        1 => Outcome::Held,
        40 => Outcome::Silence,
        41 => Outcome::Bel,
        42 => Outcome::NoGreeting,
        _ => Outcome::Other,
    }
}

// A phase that no file has: its page lies past every board.
// So a step and a mark are 46, and there is no outcome. No `Option`: `session_meant` is told a state of any fields.
fn nowhere() -> Phase
    ensures { result ≡ nowhere }
{
    Phase::Out(Step::Erase(Page(0xFFFF_FFFF)))
}

/// A session's fields for C.
pub fn session_shown(session: Session) -> SessionState
    ensures { result ≡ session_shown session }
{
    let state = SessionState {
        board: session.board,
        run: u32::from(session.kind),
        acknowledged: session.acknowledged,
        total: session.total,
        named: session.named,
        ..SessionState::default()
    };
    match session.phase {
        Phase::Greeting => state,
        Phase::Out(Step::Erase(page)) => SessionState {
            phase: 1,
            page: page.0,
            ..state
        },
        Phase::Out(Step::Write(address)) => SessionState {
            phase: 2,
            address: address.0,
            ..state
        },
        Phase::Out(Step::Verify(address)) => SessionState {
            phase: 3,
            address: address.0,
            ..state
        },
        Phase::Out(Step::Run) => SessionState { phase: 4, ..state },
        Phase::Ended(outcome) => SessionState {
            phase: 5,
            outcome: u32::from(outcome.number()),
            ..state
        },
    }
}

/// The plain session that C's fields stand for; where no start leads to such fields, one that fits no file.
pub fn plain_meant(state: PlainState) -> Plain
    ensures { result ≡ plain_meant state }
{
    if listed(state.stage, state.outcome) {
        let stage = stage_meant(state.stage, state.outcome);
        return plain_at(state, stage, state.acknowledged);
    }
    // The greeting acknowledges no packet, so this fits no file: a step and a mark are 46, and there is no outcome.
    // No `Option`: `plain_meant` is told a state of any fields.
    plain_at(state, Stage::Waiting, 1)
}

fn plain_at(state: PlainState, stage: Stage, acknowledged: u32) -> Plain
    ensures { result ≡ plain_at state stage acknowledged }
{
    Plain {
        board: state.board,
        kind: RunKind::of(state.run),
        phase: stage,
        acknowledged,
        total: state.total,
        named: state.named,
    }
}

// Whether what the numbers stand for is shown by them: no start leads to others.
fn listed(number: u32, outcome: u32) -> bool
    ensures { result ≡ listed number outcome }
{
    let stage = stage_meant(number, outcome);
    if stage_shown(stage) != number {
        return false;
    }
    ending_shown(stage) == outcome
}

fn stage_meant(number: u32, outcome: u32) -> Stage
    ensures { result ≡ stage_meant number outcome }
{
    match number {
        0 => Stage::Waiting,
        1 => Stage::UnderWay,
        _ => Stage::Ended(outcome_meant(outcome)),
    }
}

/// A plain session's fields for C.
pub fn plain_shown(plain: Plain) -> PlainState
    ensures { result ≡ plain_shown plain }
{
    PlainState {
        board: plain.board,
        run: u32::from(plain.kind),
        stage: stage_shown(plain.phase),
        outcome: ending_shown(plain.phase),
        acknowledged: plain.acknowledged,
        total: plain.total,
        named: plain.named,
    }
}

fn stage_shown(stage: Stage) -> u32
    ensures { result ≡ stage_shown stage }
{
    match stage {
        Stage::Waiting => 0,
        Stage::UnderWay => 1,
        Stage::Ended(_) => 2,
    }
}

fn ending_shown(stage: Stage) -> u32
    ensures { result ≡ ending_shown stage }
{
    match stage {
        Stage::Waiting => 0,
        Stage::UnderWay => 0,
        Stage::Ended(outcome) => outcome.number() as u32,
    }
}

/// The station's settings as they came, each a number.
pub fn station_meant(state: StationState) -> Station
    ensures { result ≡ station_meant state }
{
    Station {
        version: state.version,
        number: state.station,
        run: state.run,
        rules: state.rules,
        first: Page(state.first),
        last: Page(state.last),
    }
}

/// A station's fields for C.
pub fn station_shown(station: Station) -> StationState
    ensures { result ≡ station_shown station }
{
    StationState {
        version: station.version,
        station: station.number,
        run: station.run,
        rules: station.rules,
        first: station.first.0,
        last: station.last.0,
    }
}
