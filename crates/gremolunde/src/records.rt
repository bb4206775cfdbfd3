// The service log for C.
ghost use Rattle.std.specs.Prelude.{◌≡◌, length};
ghost use Rattle.basis.specs.Lists.{overlay};
ghost use Rattle.basis.specs.Refusals.{counted, written};
ghost use Rattle.gremolunde.specs.Answers.{length_answer, record_answer};
ghost use Rattle.gremolunde.specs.States.{session_meant};
ghost use Rattle.service_log.specs.Log.{write_of, read_of};
ghost use Rattle.service_log.specs.Paper.{paper_reading};

use crate::answers::{Length, length_answer};
use crate::states::{SessionState, session_meant};
use basis::numbered::Numbered;
use service_log::read::{Record, Unread, read};
use service_log::write::write;

/// What a record says; all 0 but for the number where it is refused.
#[repr(C)]
#[derive(Clone, Copy, Default)]
pub struct LogRecord {
    pub number: u32,
    pub version: u8,
    pub outcome: u8,
    pub acknowledged: u32,
    pub total: u32,
    pub bytes: u32,
}

/// Writes a session's record at the start of the buffer: how many bytes it has.
///
/// 65 for no board, 45 for a session that is unfinished or that no record tells, then 20 where the buffer has too few
/// bytes; it then stays as it was.
#[unsafe(no_mangle)]
pub extern "C" fn gremolunde_log_write(session: SessionState, buffer: &mut [u8]) -> Length
    ensures answer { let b = write_of (length buffer.old) (session_meant session) in
        result ≡ length_answer (counted b) }
    ensures bytes { let b = write_of (length buffer.old) (session_meant session) in
        buffer.new ≡ overlay (written b) buffer.old }
{
    length_answer(write(session_meant(session), buffer))
}

/// Reads a record: 50 under 10 bytes, 51 for another length, 52 for another version, 53 for a false record.
#[unsafe(no_mangle)]
pub extern "C" fn gremolunde_log_read(input: &[u8]) -> LogRecord
    ensures { result ≡ record_answer (read_of input.now) }
{
    record_answer(read(input))
}

fn record_answer(answer: Result<Record, Unread>) -> LogRecord
    ensures { result ≡ record_answer (paper_reading answer) }
{
    match answer {
        Ok(said) => LogRecord {
            number: 0,
            version: said.version,
            outcome: said.outcome,
            acknowledged: said.acknowledged,
            total: said.total,
            bytes: said.bytes,
        },
        Err(why) => LogRecord {
            number: why.number(),
            ..LogRecord::default()
        },
    }
}
