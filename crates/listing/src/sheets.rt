// A plan's lines sheet by sheet, into lent buffers.
// Beside `Printout::print` since a sheet cannot fail, and asks for no writer.
ghost use Rattle.std.specs.Prelude.{◌≡◌, ◌+◌, ◌-◌, ◌*◌, ◌<◌, ◌≤◌, length, drop};
ghost use Rattle.basis.specs.Board.{pages_of};
ghost use Rattle.basis.specs.Lists.{overlay, copy_of};
ghost use Rattle.basis.specs.declared.kind.RunKind.{RunKind};
ghost use Rattle.order.specs.Plan.{plan};
ghost use Rattle.order.specs.Walk.{steps_left, steps_from};
ghost use Rattle.packet.specs.Packet.{packet_most};
ghost use Rattle.listing.specs.Lines.{step_line};
ghost use Rattle.listing.specs.Plan.{sheet_of};

use crate::numbers::decimal;
use crate::plan::{Printout, command_letter};
use basis::kind::RunKind;
use image::writer::spell;
use order::sending::send;
use order::steps::Steps;
use packet::build::PACKET;

/// No step's line is longer: 20 digits, a letter, 259 bytes, two spaces and 0A.
pub const LONGEST: usize = 542;

/// A listing of which so many packets are listed, and the steps of those that are left.
#[derive(Clone, Copy)]
pub struct Sheets<'a> {
    pub listing: Printout<'a>,
    pub steps: Steps<'a>,
    pub listed: u32,
    pub ghost left: { let m = listing.file.map in
        steps_left (pages_of steps.map.board) steps.map.bits.now steps.kind steps.next
        ≡ steps_from (pages_of m.board) m.bits.now listed (listing.total - listed) },
    pub ghost within: { listed ≤ listing.total },
}

/// The sheets after the one that was written, and the place behind its lines.
#[derive(Clone, Copy)]
pub struct Sheet<'a> {
    pub rest: Sheets<'a>,
    pub end: usize,
}

impl<'a> Sheets<'a> {
    /// Nothing is listed yet.
    pub fn new(listing: Printout<'a>) -> Sheets<'a>
        ensures listing { result.listing ≡ listing.entry }
        ensures listed { result.listed ≡ 0 }
    {
        Sheets {
            listing,
            steps: Steps::new(listing.file.map, RunKind::Reset),
            listed: 0,
        }
    }

    /// Whole lines of the packets that are left, as long as the longest one has room.
    pub fn sheet(self, buffer: &mut [u8]) -> Sheet<'a>
        ensures listing { result.rest.listing ≡ self.entry.listing }
        ensures listed { let f = self.entry.listing.file in
            let g = sheet_of (length buffer.old) self.entry.listed
            (drop self.entry.listed (plan (pages_of f.map.board) f.image.now f.map.bits.now RunKind.Reset)) in
            result.rest.listed ≡ g.listed }
        ensures end { let f = self.entry.listing.file in
            let g = sheet_of (length buffer.old) self.entry.listed
            (drop self.entry.listed (plan (pages_of f.map.board) f.image.now f.map.bits.now RunKind.Reset)) in
            result.end ≡ length g.text }
        ensures buffer { let f = self.entry.listing.file in
            let g = sheet_of (length buffer.old) self.entry.listed
            (drop self.entry.listed (plan (pages_of f.map.board) f.image.now f.map.bits.now RunKind.Reset)) in
            buffer.new ≡ overlay g.text buffer.old }
    {
        let mut packet = [0u8; PACKET];
        self.sheet_with(&mut packet, buffer)
    }

    // The packet's buffer is lent, as that of `Printout::start_with`.
    fn sheet_with(self, packet: &mut [u8], buffer: &mut [u8]) -> Sheet<'a>
        requires { length packet.old ≡ packet_most }
        ensures listing { result.rest.listing ≡ self.entry.listing }
        ensures listed { let f = self.entry.listing.file in
            let g = sheet_of (length buffer.old) self.entry.listed
            (drop self.entry.listed (plan (pages_of f.map.board) f.image.now f.map.bits.now RunKind.Reset)) in
            result.rest.listed ≡ g.listed }
        ensures end { let f = self.entry.listing.file in
            let g = sheet_of (length buffer.old) self.entry.listed
            (drop self.entry.listed (plan (pages_of f.map.board) f.image.now f.map.bits.now RunKind.Reset)) in
            result.end ≡ length g.text }
        ensures buffer { let f = self.entry.listing.file in
            let g = sheet_of (length buffer.old) self.entry.listed
            (drop self.entry.listed (plan (pages_of f.map.board) f.image.now f.map.bits.now RunKind.Reset)) in
            buffer.new ≡ overlay g.text buffer.old }
    {
        let Sheets {
            listing,
            mut steps,
            mut listed,
        } = self;
        let mut at = 0;
        // No `for` over the steps: a line is begun only where the longest has room, and the step is still there then.
        while LONGEST <= buffer.len() - at {
            let Some(step) = steps.next() else {
                break;
            };
            let n = send(listing.file, RunKind::Reset, step, packet);
            listed += 1;
            at = step_line(buffer, at, u64::from(listed), &packet[..n]);
        }
        let rest = Sheets {
            listing,
            steps,
            listed,
        };
        Sheet { rest, end: at }
    }
}

// Step number, command letter and whole packet, from place `at` on; gives the place behind them.
fn step_line(buffer: &mut [u8], at: usize, step: u64, packet: &[u8]) -> usize
    requires { at + 2 * length packet.now + 24 ≤ length buffer.old }
    ensures end { result ≡ at + length (step_line step packet.now) }
    ensures buffer { buffer.new ≡ copy_of buffer.old at (step_line step packet.now) }
    ensures short { length (step_line step packet.now) ≤ 2 * length packet.now + 24 }
{
    let end = decimal(buffer, at, step);
    buffer[end] = b' ';
    buffer[end + 1] = command_letter(packet);
    buffer[end + 2] = b' ';
    spell(buffer, end + 3, packet);
    let last = end + 3 + 2 * packet.len();
    buffer[last] = b'\n';
    last + 1
}
