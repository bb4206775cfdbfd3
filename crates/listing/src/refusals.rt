// The lines of refusals.
ghost use Rattle.std.specs.Prelude.{◌≡◌, ◌≤◌, length, Some, OnOk};
ghost use Rattle.std.specs.Io.KnownBytes.{Appends};
ghost use Rattle.basis.specs.Lists.{overlay};
ghost use Rattle.listing.specs.Paper.{paper_blame};
ghost use Rattle.listing.specs.Lines.{refusal_room, refusal_text, refusal_at, refusal_line};

use crate::numbers::{field, last_field};
use crate::text::Blame;
use basis::numbered::Numbered;
use std::{fmt, io};

/// REFUSED, the line, the number and the column, at the buffer's start; gives the line's length.
pub fn refusal_at(buffer: &mut [u8], blame: Blame) -> usize
    requires { refusal_room ≤ length buffer.old }
    ensures end { result ≡ length (refusal_at (paper_blame blame)) }
    ensures buffer { buffer.new ≡ overlay (refusal_at (paper_blame blame)) buffer.old }
{
    let first = field(buffer, 0, b"REFUSED ", blame.line);
    let second = field(buffer, first, b" ", u64::from(blame.refusal.number()));
    last_field(buffer, second, b" ", blame.column as u64)
}

/// REFUSED and the number, at the buffer's start; gives the line's length.
#[tactic(auto, unfolding(crate::specs::Lines::refusal_line))]
pub fn refusal_line(buffer: &mut [u8], number: u64) -> usize
    requires { refusal_room ≤ length buffer.old }
    ensures end { result ≡ length (refusal_line number) }
    ensures buffer { buffer.new ≡ overlay (refusal_line number) buffer.old }
{
    last_field(buffer, 0, b"REFUSED ", number)
}

impl fmt::Display for Blame {
    ghost output = { λ b. Some (refusal_text (paper_blame b)) };

    #[tactic(auto, using(crate::proofs::Digits::decimals))]
    fn fmt<W: fmt::Write>(&self, f: &mut fmt::Formatter<W>) -> fmt::Result {
        let Blame {
            line,
            refusal,
            column,
        } = *self;
        write!(f, "REFUSED {line} {} {column}", refusal.number())
    }
}

/// Prints REFUSED, the line, the number and the column.
#[tactic(auto, unfolding(crate::specs::Lines::refusal_at))]
pub fn print<W: io::Write>(out: &mut W, blame: Blame) -> io::Result<()>
    ensures { OnOk result (Appends (W.contents out.old) (W.contents out.new)
        (refusal_at (paper_blame blame))) }
{
    writeln!(out, "{blame}")
}
