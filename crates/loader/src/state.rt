// The loader's state, as it leaves the factory and after a reset.
ghost use Rattle.std.specs.Prelude.{◌≡◌};
ghost use Rattle.loader.specs.State.{closed, factory_of, reset_of, with_condition, with_added, joined_of, cleared_of};

use crate::protection::Protection;

/// The key where none is set: from the factory on, and after a mass erase.
pub const CLEARED_KEY: u32 = 0xFFFF_FFFF;

/// What a loader listens for.
#[derive(Clone, Copy, Debug, PartialEq, Eq)]
pub enum Condition {
    /// For the opening byte alone.
    Waiting,
    /// For packets.
    Serving,
    /// For nothing: R has left it.
    Left,
}

/// A protect sequence: what has been added to it takes effect only when it closes.
// No `Option`: a state that C made up, closed and with something added, comes back as it was.
#[derive(Clone, Copy, Debug, PartialEq, Eq)]
pub struct Sequence {
    pub opened: bool,
    pub added: Protection,
}

/// A loader's state; its flash is lent to each call.
#[derive(Clone, Copy, Debug, PartialEq, Eq)]
pub struct Loader {
    pub condition: Condition,
    pub sequence: Sequence,
    pub protection: Protection,
    pub key: u32,
}

impl Sequence {
    /// No sequence is open, and nothing is added.
    pub fn closed() -> Sequence
        ensures { result ≡ closed }
    {
        Sequence {
            opened: false,
            added: Protection::none(),
        }
    }
}

impl Loader {
    /// As it leaves the factory: waiting, with nothing protected and no key.
    pub fn factory() -> Loader
        ensures { result ≡ factory_of }
    {
        Loader {
            condition: Condition::Waiting,
            sequence: Sequence::closed(),
            protection: Protection::none(),
            key: CLEARED_KEY,
        }
    }

    /// Waits again, with no sequence open. Protection and key stay, and so does flash.
    pub fn reset(self) -> Loader
        ensures { result ≡ reset_of self }
    {
        Loader {
            condition: Condition::Waiting,
            sequence: Sequence::closed(),
            ..self
        }
    }

    /// The same in another condition.
    pub fn with_condition(self, condition: Condition) -> Loader
        ensures { result ≡ with_condition self condition }
    {
        Loader { condition, ..self }
    }

    /// A protect sequence is open, with so much added.
    pub fn with_added(self, added: Protection) -> Loader
        ensures { result ≡ with_added self added }
    {
        let sequence = Sequence {
            opened: true,
            added,
        };
        Loader { sequence, ..self }
    }

    /// The sequence closes with a key: what was added is in force from now on.
    pub fn joined(self, key: u32) -> Loader
        ensures { result ≡ joined_of self key }
    {
        Loader {
            sequence: Sequence::closed(),
            protection: self.protection.join(self.sequence.added),
            key,
            ..self
        }
    }

    /// Nothing is protected, and there is no key.
    pub fn cleared(self) -> Loader
        ensures { result ≡ cleared_of self }
    {
        Loader {
            protection: Protection::none(),
            key: CLEARED_KEY,
            ..self
        }
    }
}
