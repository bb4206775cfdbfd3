// The builder: a packet into the caller's buffer.
ghost use Rattle.std.specs.Prelude.{◌≡◌, ◌+◌, ◌≤◌, map, length};
ghost use Rattle.basis.specs.Board.{data_most};
ghost use Rattle.basis.specs.Lists.{overlay};
ghost use Rattle.basis.specs.Refusals.{counted, written};
ghost use Rattle.packet.specs.Packet.{front_of, carried_of, packet, build_of, packet_most};
ghost use Rattle.packet.specs.Paper.{paper_command, paper_unbuilt, paper_built};
ghost use Rattle.packet.specs.declared.build.Unbuilt.TheVariants.{Table};

use crate::table::{Command, NEXT_START, Refusal, START, look_up};
use crate::turn::turned;
use basis::board::DATA;
use basis::buffers::{self, first_byte};
use basis::numbered::Numbered;
use basis::sums::checksum;
use basis::units::Address;

/// No packet is longer: eight bytes, the data, and the checksum.
pub const PACKET: usize = 8 + DATA + 1;

/// Why a packet is not built.
#[derive(Clone, Copy, Debug, PartialEq, Eq)]
pub enum Unbuilt {
    /// The buffer has no room for the longest packet.
    NoRoom,
    /// Data that the command table doesn't have.
    Table(Refusal),
}

impl From<Refusal> for Unbuilt {
    ghost from_gives = { λ why r. r ≡ Table why };

    /// The table's refusal, handed on.
    fn from(why: Refusal) -> Unbuilt {
        Unbuilt::Table(why)
    }
}

impl Numbered for Unbuilt {
    ghost number_of = { paper_unbuilt };

    /// 20, 5 or 6.
    fn number(self) -> u32 {
        match self {
            Unbuilt::NoRoom => 20,
            Unbuilt::Table(why) => why.number(),
        }
    }
}

/// Builds a packet at the buffer's start and gives its length. `plain` is the data as it stands in the file; V sends
/// it turned. Refused by 20 (the buffer has fewer than 259 bytes), 5 (a command that is not in the table), 6 (so many
/// data bytes, or such a type of P, are not); the buffer stays as it was then.
// The command is a byte: C may hand in any, and 5 answers it.
#[tactic(auto, using(crate::proofs::Steps::built), unfolding(basis::specs::Refusals::first, crate::specs::Packet::build_of))]
pub fn build(
    buffer: &mut [u8],
    command: u8,
    address: Address,
    plain: &[u8],
) -> Result<usize, Unbuilt>
    ensures answer { paper_built result ≡ counted (build_of (length buffer.old) command address.0 plain.now) }
    ensures bytes { let b = build_of (length buffer.old) command address.0 plain.now in
        buffer.new ≡ overlay (written b) buffer.old }
{
    if buffer.len() < PACKET {
        return Err(Unbuilt::NoRoom);
    }
    let command = look_up(command, plain.len() + 5, first_byte(plain))?;
    Ok(write(buffer, command, address, plain))
}

// A packet whose data fit, into a buffer that has room for any.
fn write(buffer: &mut [u8], command: Command, address: Address, plain: &[u8]) -> usize
    requires room { packet_most ≤ length buffer.old }
    requires fits { length plain.now ≤ data_most }
    ensures length { result ≡ length plain.now + 9 }
    ensures bytes { buffer.new ≡ overlay (packet (paper_command command) address.0 plain.now) buffer.old }
{
    let end = 8 + plain.len();
    front(buffer, command, address, plain.len() + 5);
    fill(&mut buffer[8..], command, plain);
    buffer[end] = checksum(&buffer[2..end]);
    end + 1
}

// The eight bytes before the data.
fn front(buffer: &mut [u8], command: Command, address: Address, n: usize)
    requires room { 8 ≤ length buffer.old }
    requires byte { n ≤ 255 }
    ensures { buffer.new ≡ overlay (front_of n (paper_command command) address.0) buffer.old }
{
    let command = u8::from(command);
    let a = address.0.to_be_bytes();
    buffers::write(
        buffer,
        &[START, NEXT_START, n as u8, command, a[0], a[1], a[2], a[3]],
    );
}

// The data as the packet carries them, at the start of the part behind the front.
fn fill(part: &mut [u8], command: Command, plain: &[u8])
    requires { length plain.now ≤ length part.old }
    ensures { part.new ≡ overlay (map (carried_of (paper_command command)) plain.now) part.old }
{
    for (i, b) in plain.iter().enumerate() {
        part[i] = carried(command, *b);
    }
}

fn carried(command: Command, b: u8) -> u8
    ensures { result ≡ carried_of (paper_command command) b }
{
    if command == Command::Verify {
        turned(b)
    } else {
        b
    }
}
