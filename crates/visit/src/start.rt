// A session started for a station.
ghost use Rattle.std.specs.Prelude.{◌≡◌, false, length, nat_eq};
ghost use Rattle.basis.specs.Board.{pages_of};
ghost use Rattle.basis.specs.Lists.{overlay};
ghost use Rattle.runs.specs.Pieces.{named_count};
ghost use Rattle.session.specs.Session.{measured, sent_bytes};
ghost use Rattle.stations.specs.Station.{out_of_range};
ghost use Rattle.visit.specs.Paper.{paper_started, paper_unstarted};
ghost use Rattle.visit.specs.Visit.{station_pages, outside, start_at, start_for};
ghost use Rattle.visit.specs.declared.start.Unstarted.TheVariants as unstarted;

use basis::board::Board;
use basis::kind::RunKind;
use basis::numbered::Numbered;
use basis::units::Page;
use events::refusal::Refusal;
use order::sizes::lend;
use runs::map::Map;
use session::session::{Next, Session};
use stations::station::Station;
use stations::table::find;

/// Why no session is started for a station.
#[derive(Clone, Copy, Debug, PartialEq, Eq)]
pub enum Unstarted {
    /// 60: the table holds no such station.
    Unknown,
    /// 64: a touched page lies outside its bounds.
    Outside,
    /// The session's own refusal: 20 for the size of image, map or buffer, 32 for a map that names nothing.
    Session(Refusal),
}

impl From<Refusal> for Unstarted {
    ghost from_gives = { λ why r. r ≡ unstarted.Session why };

    /// The session's refusal as it came.
    fn from(refusal: Refusal) -> Unstarted {
        Unstarted::Session(refusal)
    }
}

impl Numbered for Unstarted {
    ghost number_of = { paper_unstarted };

    /// 60 or 64 among the product's refusals, or the session's own number.
    fn number(self) -> u32 {
        match self {
            Unstarted::Unknown => 60,
            Unstarted::Outside => 64,
            Unstarted::Session(why) => why.number(),
        }
    }
}

/// The session of `start` on the short board with the run kind of the station of that number, its first packet in the
/// buffer. 60 where the table holds no such station, then 20 and 32 as for a session, then 64 where a page that the
/// file touches lies below the station's first or above its last: the buffer stays as it was.
// Image and map come apart: any may be lent, and 20 answers another size.
#[tactic(auto, using(crate::proofs::Handed::handed))]
pub fn start(
    table: &[u8],
    number: u32,
    image: &[u8],
    map: &[u8],
    buffer: &mut [u8],
) -> Result<Next, Unstarted>
    ensures answer { let a = start_for table.now number image.now map.now (length buffer.old) in
        paper_started result ≡ measured a }
    ensures bytes { let a = start_for table.now number image.now map.now (length buffer.old) in
        buffer.new ≡ overlay (sent_bytes a) buffer.old }
{
    let Ok(station) = find(table, number) else {
        return Err(Unstarted::Unknown);
    };
    start_at(station, image, map, buffer)
}

#[tactic(auto, unfolding(basis::specs::Refusals::first, crate::specs::Visit::start_at))]
fn start_at(
    station: Station,
    image: &[u8],
    map: &[u8],
    buffer: &mut [u8],
) -> Result<Next, Unstarted>
    requires { out_of_range station ≡ false }
    ensures answer { let a = start_at station image.now map.now (length buffer.old) in
        paper_started result ≡ measured a }
    ensures bytes { let a = start_at station image.now map.now (length buffer.old) in
        buffer.new ≡ overlay (sent_bytes a) buffer.old }
{
    let Some(file) = lend(Board::Short, image, map, buffer.len()) else {
        return Err(Unstarted::Session(Refusal::Size));
    };
    if is_empty(file.map) {
        return Err(Unstarted::Session(Refusal::Empty));
    }
    if is_outside(station, file.map) {
        return Err(Unstarted::Outside);
    }
    let kind = RunKind::of(station.run);
    Ok(Session::start(Board::Short, kind, image, map, buffer)?)
}

// A file that touches no page names no byte.
fn is_empty(map: Map<'_>) -> bool
    requires board { pages_of map.board ≡ station_pages }
    ensures { result ≡ nat_eq (named_count station_pages map.entry.bits.now) 0 }
{
    map.next_touched(Page(0)).is_none()
}

// Whether a touched page lies below the station's first page, or above its last.
#[tactic(auto, using(crate::proofs::Bounds::bounds))]
fn is_outside(station: Station, map: Map<'_>) -> bool
    requires board { pages_of map.board ≡ station_pages }
    requires range { out_of_range station ≡ false }
    ensures { result ≡ outside station map.entry.bits.now }
{
    let Some(lowest) = map.next_touched(Page(0)) else {
        return false;
    };
    if lowest.0 < station.first.0 {
        return true;
    }
    map.next_touched(Page(station.last.0 + 1)).is_some()
}
