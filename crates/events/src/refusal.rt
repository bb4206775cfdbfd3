// Why a session refuses, and what it says of a byte.
ghost use Rattle.std.specs.Prelude.{◌≡◌};
ghost use Rattle.events.specs.Paper.{paper_refusal};

use basis::numbered::Numbered;

/// Why a session refuses, by its number.
#[derive(Clone, Copy, Debug, PartialEq, Eq)]
pub enum Refusal {
    /// There is no such board.
    Board = 65,
    /// The image, the map or the packet buffer has the wrong size.
    Size = 20,
    /// The map names nothing.
    Empty = 32,
    /// The session has ended.
    Ended = 44,
    /// No start and events over the file lead to such a session.
    Foreign = 46,
}

impl Numbered for Refusal {
    ghost number_of = { paper_refusal };

    /// 20, 32, 44, 46 or 65.
    fn number(self) -> u32 {
        self as u32
    }
}

/// Whether a byte is marked proved.
#[derive(Clone, Copy, Debug, PartialEq, Eq)]
pub enum Mark {
    Proved,
    Unproved,
}
