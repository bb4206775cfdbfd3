// How a session goes on and how it ends: any event but the one that it awaits is an end.
ghost use Rattle.std.specs.Prelude.{◌≡◌};
ghost use Rattle.events.specs.Endings.{paper_outcome, asked, ending_for, own_number, ending_of, failing, ends_at};

use crate::event::Event;
use basis::kind::RunKind;

/// The event that goes on: the greeting, or an acknowledgement.
#[derive(Clone, Copy, Debug, PartialEq, Eq)]
pub enum Awaited {
    Greeting,
    Ack,
}

/// How a session ended, by the number that the service log has for it.
#[derive(Clone, Copy, Debug, PartialEq, Eq)]
pub enum Outcome {
    /// R is acknowledged.
    Valid = 0,
    /// Verified, and held as was asked.
    Held = 1,
    /// No answer came.
    Silence = 40,
    /// A packet was refused.
    Bel = 41,
    /// What came first is no greeting.
    NoGreeting = 42,
    /// Other bytes came, or none.
    Other = 43,
}

/// The ending that an event brings. It is never called with the one awaited, which goes on.
pub fn ending(awaited: Awaited, event: Event) -> Outcome
    ensures { result ≡ ending_of awaited event }
{
    match (awaited, event) {
        (_, Event::Silence) => Outcome::Silence,
        (Awaited::Greeting, _) => Outcome::NoGreeting,
        (Awaited::Ack, Event::Bel) => Outcome::Bel,
        (Awaited::Ack, _) => Outcome::Other,
    }
}

impl Outcome {
    /// The ending that a run kind asks for: valid, or to hold, held.
    pub fn asked(kind: RunKind) -> Outcome
        ensures { result ≡ asked kind }
    {
        match kind {
            RunKind::Reset | RunKind::Jump => Outcome::Valid,
            RunKind::Hold => Outcome::Held,
        }
    }

    /// Its number: 0, 1, or 40 to 43.
    // No `From`: docs/CONTRACTS.md has it by this name.
    pub fn number(self) -> u8
        ensures { result ≡ paper_outcome self }
    {
        self as u8
    }

    /// Whether a session of the run kind can end so: a hold session is never valid, and no other is held.
    pub fn suits(self, kind: RunKind) -> bool
        ensures { result ≡ ending_for kind self }
    {
        self == Outcome::asked(kind) || !matches!(self, Outcome::Valid | Outcome::Held)
    }

    /// The number that a session of the run kind tells; 45, which no ending has, for another kind's.
    // 45 and no `Option`: docs/CONTRACTS.md names it, and `plain::outcome` gives the number on.
    pub fn own_number(self, kind: RunKind) -> u8
        ensures { result ≡ own_number kind self }
    {
        if self.suits(kind) {
            return self.number();
        }
        45
    }

    /// Whether events lead to this ending with `k` of `total` packets acknowledged.
    pub fn follows(self, asked: Outcome, total: u32, k: u32) -> bool
        ensures { result ≡ ends_at asked total self k }
    {
        if self == asked {
            return k == total;
        }
        k < total && self.fails(k)
    }

    // No greeting is an ending only before the first packet.
    fn fails(self, k: u32) -> bool
        ensures { result ≡ failing self k }
    {
        match self {
            Outcome::Valid | Outcome::Held => false,
            Outcome::NoGreeting => k == 0,
            Outcome::Silence | Outcome::Bel | Outcome::Other => true,
        }
    }
}
