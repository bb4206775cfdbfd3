// A plan's lines: what a load that ends with a reset sends, packet by packet.
ghost use Rattle.std.specs.Prelude.{◌≡◌, ◌*◌, ◌<◌, ◌≤◌, length, drop, OnOk, IfOk};
ghost use Rattle.std.specs.Io.KnownBytes.{Appends};
ghost use Rattle.basis.specs.Board.{pages_of};
ghost use Rattle.basis.specs.Lists.{overlay};
ghost use Rattle.basis.specs.Refusals.{answer_of};
ghost use Rattle.basis.specs.declared.kind.RunKind.{RunKind};
ghost use Rattle.events.specs.Paper.{paper_refusal};
ghost use Rattle.order.specs.Plan.{plan, total as packets};
ghost use Rattle.packet.specs.Packet.{packet_most, command};
ghost use Rattle.runs.specs.Pieces.{named_count};
ghost use Rattle.session.specs.Session.{started};
ghost use Rattle.listing.specs.Lines.{head_line, step_line, total_room, total_line};
ghost use Rattle.listing.specs.Paper.{paper_begun};
ghost use Rattle.listing.specs.Plan.{step_lines, plan_text, printout_by, listing_at, Listed, listing_by, sheet_of};

use crate::lines::Line;
use crate::numbers::last_field;
pub use crate::sheets::LONGEST;
use crate::sheets::Sheets;
use basis::board::Board;
use basis::buffers::write;
use basis::kind::RunKind;
use events::refusal::Refusal;
use image::writer::spell;
use order::sending::send;
use order::step::Step;
use order::steps::Steps;
use packet::build::PACKET;
use runs::file::File;
use runs::map::Map;
use session::session::Session;
use std::io;

/// So many of the packets are listed; `next` is what is left then.
#[derive(Clone, Copy, Debug, PartialEq, Eq)]
pub struct Listing {
    pub next: Option<Step>,
    pub listed: u32,
    pub total: u32,
}

/// The listing after what was written, and the place behind that.
#[derive(Clone, Copy, Debug, PartialEq, Eq)]
pub struct Sheet {
    pub listing: Listing,
    pub end: usize,
}

impl Listing {
    /// Refused as a session's start is: 20 for other sizes than the board's, 32 for a file that names no byte.
    #[tactic(auto, using(crate::proofs::Starts::printed))]
    pub fn start(board: Board, image: &[u8], map: &[u8]) -> Result<Listing, Refusal>
        ensures { paper_begun result
            ≡ listing_by (pages_of board) map.now
            (started (pages_of board) image.now map.now packet_most RunKind.Reset) }
    {
        let printout = Printout::start(board, image, map)?;
        Ok(Listing::of(Sheets::new(printout)))
    }

    /// Whole lines of the packets that are left, as long as the longest one has room, at the buffer's start.
    pub fn sheet(self, board: Board, image: &[u8], map: &[u8], buffer: &mut [u8]) -> Sheet
        requires { Listed (pages_of board) image.now map.now self }
        ensures listing { let g = sheet_of (length buffer.old) self.listed
            (drop self.listed (plan (pages_of board) image.now map.now RunKind.Reset)) in
            result.listing ≡ listing_at (pages_of board) map.now g.listed }
        ensures end { let g = sheet_of (length buffer.old) self.listed
            (drop self.listed (plan (pages_of board) image.now map.now RunKind.Reset)) in
            result.end ≡ length g.text }
        ensures buffer { let g = sheet_of (length buffer.old) self.listed
            (drop self.listed (plan (pages_of board) image.now map.now RunKind.Reset)) in
            buffer.new ≡ overlay g.text buffer.old }
    {
        let sheet = self.sheets(board, image, map).sheet(buffer);
        Sheet {
            listing: Listing::of(sheet.rest),
            end: sheet.end,
        }
    }

    // What is left, with the file that is lent anew.
    #[tactic(auto, using(crate::proofs::Starts::listed))]
    fn sheets<'a>(self, board: Board, image: &'a [u8], map: &'a [u8]) -> Sheets<'a>
        requires { Listed (pages_of board) image.now map.now self }
        ensures board { result.listing.file.map.board ≡ board }
        ensures image { result.listing.file.image.now ≡ image.now }
        ensures bits { result.listing.file.map.bits.now ≡ map.now }
        ensures listed { result.listed ≡ self.listed }
    {
        let map = Map { board, bits: map };
        let listing = Printout {
            file: File { map, image },
            total: self.total,
        };
        let steps = Steps {
            map,
            kind: RunKind::Reset,
            next: self.next,
        };
        Sheets {
            listing,
            steps,
            listed: self.listed,
        }
    }

    // The same without the file.
    #[tactic(auto, using(crate::proofs::Starts::told))]
    fn of(sheets: Sheets<'_>) -> Listing
        ensures { let m = sheets.entry.listing.file.map in
            result ≡ listing_at (pages_of m.board) m.bits.now sheets.entry.listed }
    {
        Listing {
            next: sheets.steps.next,
            listed: sheets.listed,
            total: sheets.listing.total,
        }
    }
}

/// A file that a load with a reset can take, and how many packets the load has.
#[derive(Clone, Copy)]
pub struct Printout<'a> {
    pub file: File<'a>,
    pub total: u32,
    pub ghost some: { 0 < named_count (pages_of file.map.board) file.map.bits.now },
    pub ghost whole: { total ≡ packets (pages_of file.map.board) file.map.bits.now RunKind.Reset },
}

impl<'a> Printout<'a> {
    /// Refused as a session's start is: 20 for other sizes than the board's, 32 for a file that names no byte.
    // The clauses are `paper_printout` and `Lists`, which name this struct, so that this file cannot import them.
    pub fn start(board: Board, image: &'a [u8], map: &'a [u8]) -> Result<Printout<'a>, Refusal>
        ensures begun { answer_of paper_refusal (λ l. l.total) result
            ≡ printout_by (pages_of board) map.now
            (started (pages_of board) image.now map.now packet_most RunKind.Reset) }
        ensures file { IfOk result (λ l. (l.file.map.board ≡ board) × (l.file.image.now ≡ image.now)
            × (l.file.map.bits.now ≡ map.now)) }
    {
        let mut packet = [0u8; PACKET];
        Printout::start_with(board, image, map, &mut packet)
    }

    // The packet's buffer is lent from another function: its 259 bytes would stand in every fact of this one.
    #[tactic(auto, using(crate::proofs::Starts::begun))]
    fn start_with(
        board: Board,
        image: &'a [u8],
        map: &'a [u8],
        packet: &mut [u8],
    ) -> Result<Printout<'a>, Refusal>
        ensures begun { answer_of paper_refusal (λ l. l.total) result
            ≡ printout_by (pages_of board) map.now
            (started (pages_of board) image.now map.now (length packet.old) RunKind.Reset) }
        ensures file { IfOk result (λ l. (l.file.map.board ≡ board) × (l.file.image.now ≡ image.now)
            × (l.file.map.bits.now ≡ map.now)) }
    {
        let next = Session::start(board, RunKind::Reset, image, map, packet)?;
        let map = Map { board, bits: map };
        Ok(Printout {
            file: File { map, image },
            total: next.session.total,
        })
    }

    /// Prints the head line, a line for each packet, and their number.
    pub fn print<W: io::Write>(self, out: &mut W) -> io::Result<()>
        ensures { OnOk result (Appends (W.contents out.old) (W.contents out.new)
            (plan_text (pages_of self.entry.file.map.board) self.entry.file.image.now
            self.entry.file.map.bits.now)) }
    {
        writeln!(out, "{}", Line::head())?;
        let mut packet = [0u8; PACKET];
        let mut hex = [0u8; 2 * PACKET];
        print_steps(out, self.file, &mut packet, &mut hex)?;
        writeln!(out, "{}", Line::total(self.total))
    }
}

/// The line above the steps, at the buffer's start; gives its length.
pub fn head_line(buffer: &mut [u8]) -> usize
    requires { total_room ≤ length buffer.old }
    ensures end { result ≡ length head_line }
    ensures buffer { buffer.new ≡ overlay head_line buffer.old }
{
    write(buffer, b"STEP KIND PACKET\n");
    17
}

/// The line below them, at the buffer's start; gives its length.
#[tactic(auto, unfolding(crate::specs::Lines::total_line))]
pub fn total_line(buffer: &mut [u8], total: u32) -> usize
    requires { total_room ≤ length buffer.old }
    ensures end { result ≡ length (total_line total) }
    ensures buffer { buffer.new ≡ overlay (total_line total) buffer.old }
{
    last_field(buffer, 0, b"TOTAL ", u64::from(total))
}

// A line for each packet; the packet's buffer is lent, as that of `start_with`.
fn print_steps<W: io::Write>(
    out: &mut W,
    file: File<'_>,
    packet: &mut [u8],
    hex: &mut [u8],
) -> io::Result<()>
    requires some { 0 < named_count (pages_of file.map.board) file.map.bits.now }
    requires packet { length packet.old ≡ packet_most }
    requires hex { 2 * packet_most ≤ length hex.old }
    ensures { OnOk result (Appends (W.contents out.old) (W.contents out.new)
        (step_lines 0 (plan (pages_of file.entry.map.board) file.entry.image.now
        file.entry.map.bits.now RunKind.Reset))) }
{
    for (i, step) in Steps::new(file.map, RunKind::Reset).enumerate() {
        let n = send(file, RunKind::Reset, step, packet);
        print_step(out, i + 1, &packet[..n], hex)?;
    }
    Ok(())
}

// Step number, command letter and whole packet. By `Display` the packet's hex would take 40 times as long as
// spelled into a buffer, and miss the bar of speed of ./bench that this meets.
fn print_step<W: io::Write>(
    out: &mut W,
    step: usize,
    packet: &[u8],
    hex: &mut [u8],
) -> io::Result<()>
    requires { 2 * length packet.now ≤ length hex.old }
    ensures { OnOk result (Appends (W.contents out.old) (W.contents out.new) (step_line step packet.now)) }
{
    spell(hex, 0, packet);
    write!(out, "{step}")?;
    out.write_all(&[b' ', command_letter(packet), b' '])?;
    out.write_all(&hex[..2 * packet.len()])?;
    out.write_all(b"\n")
}

// The command is the packet's fourth byte.
pub(crate) fn command_letter(packet: &[u8]) -> u8
    ensures { result ≡ command packet.now }
{
    packet.get(3).copied().unwrap_or(0)
}
