// The run kinds, and the number of each.
ghost use Rattle.std.specs.Prelude.{◌≡◌};
ghost use Rattle.basis.specs.RunKinds.{paper_kind, kind_of};

/// What the board does after the last packet.
#[derive(Clone, Copy, Debug, PartialEq, Eq)]
pub enum RunKind {
    Reset = 0,
    Jump = 1,
    /// Nothing is started.
    Hold = 2,
}

impl RunKind {
    /// The run kind that a number asks for: 0 reset, 1 jump, 2 hold. What is not known starts nothing.
    // No `TryFrom`, since no number is an error; and no `From`: docs/CONTRACTS.md names `of`.
    pub fn of(number: u32) -> RunKind
        ensures { result ≡ kind_of number }
    {
        match number {
            0 => RunKind::Reset,
            1 => RunKind::Jump,
            2 => RunKind::Hold,
            // The listed and the unlisted apart, as the paper has them.
            _ => RunKind::Hold,
        }
    }
}

impl From<RunKind> for u32 {
    ghost from_gives = { λ k n. n ≡ paper_kind k };

    /// Its number: 0, 1 or 2.
    fn from(kind: RunKind) -> u32 {
        kind as u32
    }
}
