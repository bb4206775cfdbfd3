// The reader: what an input of any length says, or why it is no packet.
ghost use Rattle.std.specs.Prelude.{◌≡◌, ◌+◌, ◌≤◌, length};
ghost use Rattle.packet.specs.Packet.{count, address, starts_right, tabled_of, read_of};
ghost use Rattle.packet.specs.Paper.{paper_reading};

use crate::table::{Command, NEXT_START, Refusal, START, look_up};
use basis::sums::sum;
use basis::units::Address;

/// What a packet says, and where its data stand in the input, `len` bytes from `at` on; those of V are still turned.
// A place and a length, no slice: C is told both, and a deed keeps the packet without the input.
#[derive(Clone, Copy, Debug, PartialEq, Eq)]
pub struct Packet {
    pub command: Command,
    pub address: Address,
    pub at: usize,
    pub len: usize,
}

/// Reads an input of any length, or refuses it by the first of the loader's rows that holds: 1 other start bytes,
/// 2 too short to have a count N, 3 N below 5, 2 another length than N says, 4 a sum that is not zero,
/// 5 a command that is not in the table, 6 an N or a type of P that is not.
#[tactic(auto, unfolding(basis::specs::Refusals::first, crate::specs::Packet::read_of, crate::specs::Packet::rows))]
pub fn read(input: &[u8]) -> Result<Packet, Refusal>
    ensures { paper_reading result ≡ read_of input.now }
{
    if !starts_right(input) {
        return Err(Refusal::Start);
    }
    let Some(count) = input.get(2) else {
        return Err(Refusal::Length);
    };
    let n = usize::from(*count);
    if n < 5 {
        return Err(Refusal::Count);
    }
    if input.len() != n + 4 {
        return Err(Refusal::Length);
    }
    if sum(&input[2..]) != 0 {
        return Err(Refusal::Checksum);
    }
    tabled(input, n)
}

fn starts_right(input: &[u8]) -> bool
    ensures { result ≡ starts_right input.now }
{
    input.starts_with(&[START, NEXT_START])
}

// A packet that is whole and sums to zero: what the command table says of it.
#[tactic(auto, unfolding(basis::specs::Refusals::first, crate::specs::Packet::tabled_of))]
fn tabled(input: &[u8], n: usize) -> Result<Packet, Refusal>
    requires count { n ≡ count input.now }
    requires least { 5 ≤ n }
    requires whole { length input.now ≡ n + 4 }
    ensures { paper_reading result ≡ tabled_of input.now }
{
    let command = look_up(input[3], n, input[8])?;
    Ok(Packet {
        command,
        address: address_in(input),
        at: 8,
        len: n - 5,
    })
}

// Most significant byte first.
fn address_in(input: &[u8]) -> Address
    requires { 8 ≤ length input.now }
    ensures { result.0 ≡ address input.now }
{
    Address(u32::from_be_bytes([input[4], input[5], input[6], input[7]]))
}
