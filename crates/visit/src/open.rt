// A file opened for a station.
ghost use Rattle.std.specs.Prelude.{◌≡◌};
ghost use Rattle.image.specs.Hex.{settled_as, settled};
ghost use Rattle.image.specs.Record.{pointed, no_line};
ghost use Rattle.visit.specs.Paper.{paper_opened, paper_unopened};
ghost use Rattle.visit.specs.Visit.{open_for};
ghost use Rattle.visit.specs.declared.open.Unopened.TheVariants as unopened;

use basis::board::Board;
use basis::numbered::Numbered;
use image::hex::Hex;
use image::record::Blame;
use stations::table::find;

/// Why a file is not opened for a station.
#[derive(Clone, Copy, Debug, PartialEq, Eq)]
pub enum Unopened {
    /// 60: the table holds no such station.
    Unknown,
    /// The hex reader's own refusal, 20 here, and its column, 0 where it has none.
    Hex(Blame),
}

impl From<Blame> for Unopened {
    ghost from_gives = { λ why r. r ≡ unopened.Hex why };

    /// The hex reader's refusal, with its column, as it came.
    fn from(blame: Blame) -> Unopened {
        Unopened::Hex(blame)
    }
}

impl Numbered for Unopened {
    ghost number_of = { paper_unopened };

    /// 60 among the product's refusals, or the hex reader's own number.
    fn number(self) -> u32 {
        match self {
            Unopened::Unknown => 60,
            Unopened::Hex(why) => why.refusal.number(),
        }
    }
}

/// The hex reader at the start of a file for the station of that number, under its rule set, the image filled with
/// 0xFF and the map with 0, both of the short board's sizes. 60 where the table holds no such station, then 20 for
/// another size: both stay as they were.
#[tactic(auto, using(crate::proofs::Handed::handed), unfolding(image::specs::Record::column_of))]
pub fn open(table: &[u8], number: u32, image: &mut [u8], map: &mut [u8]) -> Result<Hex, Unopened>
    ensures { let i = image.old in
        let m = map.old in
        let a = open_for table.now number i m in
        settled_as (paper_opened result) image.new map.new ≡ settled (pointed no_line a) i m }
{
    let Ok(station) = find(table, number) else {
        return Err(Unopened::Unknown);
    };
    Ok(Hex::start(Board::Short, station.rules, image, map)?)
}
