// The log record of a plain session, by the writer that the quick one has.
ghost use Rattle.std.specs.Prelude.{◌≡◌, length};
ghost use Rattle.alike.specs.Alike.{plain_log};
ghost use Rattle.basis.specs.Lists.{overlay};
ghost use Rattle.basis.specs.Refusals.{counted, written};
ghost use Rattle.service_log.specs.Paper.{paper_written};

use plain::plain::{Plain, outcome};
use service_log::write::{Unwritten, write_counts};

/// Writes the record of a plain session that has ended, and gives its length in bytes. Refused are a session of no
/// board (65), one that no record says (45), and a buffer shorter than the record (20).
pub fn write(plain: Plain, buffer: &mut [u8]) -> Result<usize, Unwritten>
    ensures answer { paper_written result ≡ counted (plain_log (length buffer.old) plain) }
    ensures bytes { let b = plain_log (length buffer.old) plain in
        buffer.new ≡ overlay (written b) buffer.old }
{
    write_counts(
        plain.board,
        outcome(plain),
        plain.acknowledged,
        plain.total,
        plain.named,
        buffer,
    )
}
