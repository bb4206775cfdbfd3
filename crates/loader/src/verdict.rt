// Why the loader refuses a command.
ghost use Rattle.std.specs.Prelude.{◌≡◌};
ghost use Rattle.loader.specs.Paper.{paper_refusal};
ghost use Rattle.loader.specs.declared.verdict.Refusal.TheVariants.{Unread};

use basis::numbered::Numbered;

/// Why an input is refused.
#[derive(Clone, Copy, Debug, PartialEq, Eq)]
pub enum Refusal {
    /// 20: flash has not the board's size, or the answer buffer fewer bytes than a greeting.
    Size,
    /// 11: waiting, it is not the opening byte; or the loader was left.
    Unheard,
    /// 1 to 6: it is no packet.
    Unread(packet::table::Refusal),
    /// 9: a protect sequence is open, or none is that could grow or close.
    Sequence,
    /// 7: the range or the address lies past the end, or an erase has no pages.
    Address,
    /// 8: the range touches a protected group, or reading is protected.
    Protected,
    /// 10: V found another byte in flash.
    Differs,
}

impl Numbered for Refusal {
    ghost number_of = { paper_refusal };

    /// The number in the paper's list.
    fn number(self) -> u32 {
        match self {
            Refusal::Size => 20,
            Refusal::Unheard => 11,
            Refusal::Unread(why) => why.number(),
            Refusal::Sequence => 9,
            Refusal::Address => 7,
            Refusal::Protected => 8,
            Refusal::Differs => 10,
        }
    }
}

impl From<packet::table::Refusal> for Refusal {
    ghost from_gives = { λ why r. r ≡ Unread why };

    /// What the packet's reader refuses is refused here with its number.
    fn from(why: packet::table::Refusal) -> Refusal {
        Refusal::Unread(why)
    }
}
