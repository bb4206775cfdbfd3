// A log record as its line.
ghost use Rattle.std.specs.Prelude.{◌≡◌, ◌≤◌, ◌++◌, length, Some};
ghost use Rattle.basis.specs.Lists.{overlay};
ghost use Rattle.listing.specs.Lines.{line_end, record_text, record_line, log_room, log_text, log_line};
ghost use Rattle.service_log.specs.Log.{read_of};
ghost use Rattle.service_log.specs.Paper.{paper_reading};

use crate::lines::Line;
use crate::numbers::{field, last_field};
use crate::refusals::refusal_line;
use basis::numbered::Numbered;
use service_log::read::{Record, Unread, read};
use std::fmt;

/// No line of a record is longer: 38 characters of words, five numbers of 20 digits and 0A.
pub const ROOM: usize = 139;

/// What the input says, or REFUSED and why it says nothing, 50 to 53, at the buffer's start; gives the line's length.
pub fn log_line(input: &[u8], buffer: &mut [u8]) -> usize
    requires { log_room ≤ length buffer.old }
    ensures end { result ≡ length (log_line (read_of input.now)) }
    ensures buffer { buffer.new ≡ overlay (log_line (read_of input.now)) buffer.old }
{
    match read(input) {
        Ok(record) => record_line(record, buffer),
        Err(why) => refusal_line(buffer, u64::from(why.number())),
    }
}

fn record_line(x: Record, buffer: &mut [u8]) -> usize
    requires { log_room ≤ length buffer.old }
    ensures end { result ≡ length (record_line x) }
    ensures buffer { buffer.new ≡ overlay (record_line x) buffer.old }
{
    let version = field(buffer, 0, b"VERSION ", u64::from(x.version));
    let outcome = field(buffer, version, b" OUTCOME ", u64::from(x.outcome));
    let acknowledged = field(buffer, outcome, b" ACKED ", u64::from(x.acknowledged));
    let total = field(buffer, acknowledged, b" TOTAL ", u64::from(x.total));
    last_field(buffer, total, b" BYTES ", u64::from(x.bytes))
}

/// What a record says.
#[derive(Clone, Copy, Debug, PartialEq, Eq)]
pub struct Said(pub Record);

impl fmt::Display for Said {
    ghost output = { λ x. Some (record_text x.0) };

    #[tactic(auto, using(crate::proofs::Digits::decimals))]
    fn fmt<W: fmt::Write>(&self, f: &mut fmt::Formatter<W>) -> fmt::Result {
        let Record {
            version,
            outcome,
            acknowledged,
            total,
            bytes,
        } = self.0;
        write!(
            f,
            "VERSION {version} OUTCOME {outcome} ACKED {acknowledged} TOTAL {total} BYTES {bytes}"
        )
    }
}

/// What an input says as a record, or REFUSED and why it is none: 50 to 53; its 0A comes with `println`.
#[derive(Clone, Copy, Debug, PartialEq, Eq)]
pub struct LogLine(pub Result<Record, Unread>);

impl LogLine {
    /// The line of an input.
    #[tactic(auto, using(crate::proofs::Digits::logged))]
    pub fn of(input: &[u8]) -> LogLine
        ensures said { paper_reading result.0 ≡ read_of input.now }
        ensures line { log_text (paper_reading result.0) ++ line_end ≡ log_line (read_of input.now) }
    {
        LogLine(read(input))
    }
}

impl fmt::Display for LogLine {
    ghost output = { λ x. Some (log_text (paper_reading x.0)) };

    #[tactic(auto, using(crate::proofs::Digits::decimals))]
    fn fmt<W: fmt::Write>(&self, f: &mut fmt::Formatter<W>) -> fmt::Result {
        match self.0 {
            Ok(record) => write!(f, "{}", Said(record)),
            Err(why) => write!(f, "{}", Line::refused(u64::from(why.number()))),
        }
    }
}
