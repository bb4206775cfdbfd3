// Reads one log record on standard input and prints what it says, or why it is none.
#![tactic(auto)]

ghost use Rattle.std.specs.Prelude.{◌≤◌, length, IfOk};

use basis::buffers::first;
use listing::log::{ROOM, log_line};
use service_log::read::MOST;
use std::io;
use std::io::Read;

fn main(rt: HostRuntime) -> io::Result<()> {
    // one byte more than the longest record has, to tell a longer input
    let mut input = [0u8; MOST + 1];
    let mut line = [0u8; ROOM];
    let n = fill(&rt, &mut input)?;
    let len = log_line(&input[..n], &mut line);
    rt.write_all(first(&line, len))
}

// Reads until the buffer is full or the input ends. Not std's `read_to_end`: that takes memory, and the programs
// trust no C function for it.
fn fill(rt: &impl Input, input: &mut [u8]) -> io::Result<usize>
    ensures { IfOk result (λ n. n ≤ length input.new) }
{
    let mut reader = rt.reader();
    let mut at = 0;
    // No `for`: a read tells how many bytes came.
    while at < input.len() {
        let n = reader.read(&mut input[at..])?;
        if n == 0 {
            return Ok(at);
        }
        at += n;
    }
    Ok(at)
}
