// The command table: which commands there are, and what may follow the address.
ghost use Rattle.std.specs.Prelude.{◌≡◌};
ghost use Rattle.basis.specs.Refusals.{given, first};
ghost use Rattle.packet.specs.Paper.{paper_command, paper_refusal, paper_row, shaped_of};
ghost use Rattle.packet.specs.Table.{table, data_count, protect_type};

use basis::numbered::Numbered;

/// The first byte of a packet.
pub const START: u8 = 0x07;

/// Its second byte.
pub const NEXT_START: u8 = 0x0E;

/// E: erase pages, or all.
pub const ERASE: u8 = Command::Erase as u8;

/// W: write bytes.
pub const WRITE: u8 = Command::Write as u8;

/// V: verify bytes.
pub const VERIFY: u8 = Command::Verify as u8;

/// P: protect groups.
pub const PROTECT: u8 = Command::Protect as u8;

/// R: run.
pub const RUN: u8 = Command::Run as u8;

/// The commands by their bytes.
#[derive(Clone, Copy, Debug, PartialEq, Eq)]
pub enum Command {
    Erase = 0x45,
    Write = 0x57,
    Verify = 0x56,
    Protect = 0x50,
    Run = 0x52,
}

/// Why an input is no packet, or data none for a packet: the numbers of the loader's table.
#[derive(Clone, Copy, Debug, PartialEq, Eq)]
pub enum Refusal {
    /// It does not start with 07 0E.
    Start = 1,
    /// It is shorter or longer than its count N says.
    Length = 2,
    /// N is below 5.
    Count = 3,
    /// From N on its bytes do not sum to zero.
    Checksum = 4,
    /// The table has no such command.
    Unlisted = 5,
    /// The table has another N for the command, or P is of no type that it has.
    Shape = 6,
}

impl From<Command> for u8 {
    ghost from_gives = { λ c b. b ≡ paper_command c };

    /// The command's byte.
    fn from(command: Command) -> u8 {
        command as u8
    }
}

impl Numbered for Refusal {
    ghost number_of = { paper_refusal };

    /// 1 to 6.
    fn number(self) -> u32 {
        self as u32
    }
}

/// What the table says of a packet with this command and count N: the command, or refused by 5 (it is not
/// in the table) or 6 (its N is not, or P's type). `kind` is P's type, as its byte: it stands after the address and
/// counts for P alone.
#[tactic(auto, unfolding(basis::specs::Refusals::first))]
pub fn look_up(command: u8, n: usize, kind: u8) -> Result<Command, Refusal>
    ensures { paper_row result ≡ first (table command n kind) (given command) }
{
    match command {
        ERASE => shaped(Command::Erase, n == 6),
        WRITE => shaped(Command::Write, data_count(n)),
        VERIFY => shaped(Command::Verify, data_count(n)),
        PROTECT => shaped(Command::Protect, n == 6 && protect_type(kind)),
        RUN => shaped(Command::Run, n == 5),
        _ => Err(Refusal::Unlisted),
    }
}

fn shaped(command: Command, fits: bool) -> Result<Command, Refusal>
    ensures { paper_row result ≡ shaped_of command fits }
{
    if fits {
        Ok(command)
    } else {
        Err(Refusal::Shape)
    }
}

// W and V carry 1 to 250 bytes.
fn data_count(n: usize) -> bool
    ensures { result ≡ data_count n }
{
    (6..=255).contains(&n)
}

fn protect_type(kind: u8) -> bool
    ensures { result ≡ protect_type kind }
{
    matches!(kind, 0x00 | 0x0F | 0x01)
}
