// Packets for C: bytes turned and turned back, the builder and the reader.
ghost use Rattle.std.specs.Prelude.{◌≡◌, length};
ghost use Rattle.basis.specs.Lists.{overlay};
ghost use Rattle.basis.specs.Refusals.{counted, written};
ghost use Rattle.gremolunde.specs.Answers.{length_answer, parts_answer};
ghost use Rattle.packet.specs.Packet.{build_of, read_of};
ghost use Rattle.packet.specs.Paper.{paper_reading};
ghost use Rattle.packet.specs.Turn.{turned_of, restored_of};

use crate::answers::{Length, length_answer};
use basis::numbered::Numbered;
use basis::units::Address;
use packet::build::build;
use packet::read::{Packet, read};
use packet::table::Refusal;
use packet::turn::{restored, turned};

/// What a packet says, and where its data stand; all but the number is 0 where it is refused.
#[repr(C)]
#[derive(Clone, Copy, Default)]
pub struct Parts {
    /// 0, or the refusal's number.
    pub number: u32,
    pub command: u8,
    pub address: u32,
    /// Where its data start in the input; those of V stand there as they are sent.
    pub place: usize,
    /// How many data bytes there are.
    pub length: usize,
}

/// A byte as V sends it: from the top, the original bits 4 3 2 1 0 7 6 5.
#[unsafe(no_mangle)]
pub extern "C" fn gremolunde_turned(byte: u8) -> u8
    ensures { result ≡ turned_of byte }
{
    turned(byte)
}

/// The original of a byte that V sent.
#[unsafe(no_mangle)]
pub extern "C" fn gremolunde_restored(byte: u8) -> u8
    ensures { result ≡ restored_of byte }
{
    restored(byte)
}

/// Builds the packet of a command byte, an address and data as the file has them, at the buffer's start. Refused are a
/// buffer of fewer than 259 bytes (20), a command that is not in the table (5), and a number of data bytes or a type of
/// P that the table does not have (6); the buffer stays as it was then.
#[unsafe(no_mangle)]
pub extern "C" fn gremolunde_packet_build(
    buffer: &mut [u8],
    command: u8,
    address: u32,
    plain: &[u8],
) -> Length
    ensures answer { let b = build_of (length buffer.old) command address plain.now in
        result ≡ length_answer (counted b) }
    ensures bytes { let b = build_of (length buffer.old) command address plain.now in
        buffer.new ≡ overlay (written b) buffer.old }
{
    length_answer(build(buffer, command, Address(address), plain))
}

/// Reads an input of any length. Refused is the first of these: other start bytes (1), no count N (2), an N below 5
/// (3), another length than N says (2), a sum that is not zero (4), a command that is not in the table (5), and an N or
/// a type of P that the table does not have (6).
#[unsafe(no_mangle)]
pub extern "C" fn gremolunde_packet_read(input: &[u8]) -> Parts
    ensures { result ≡ parts_answer (read_of input.now) }
{
    parts_answer(read(input))
}

fn parts_answer(answer: Result<Packet, Refusal>) -> Parts
    ensures { result ≡ parts_answer (paper_reading answer) }
{
    match answer {
        Ok(said) => Parts {
            number: 0,
            command: u8::from(said.command),
            address: said.address.0,
            place: said.at,
            length: said.len,
        },
        Err(why) => Parts {
            number: why.number(),
            ..Parts::default()
        },
    }
}
