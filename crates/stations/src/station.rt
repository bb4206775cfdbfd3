// A station's settings, and why one is refused.
ghost use Rattle.std.specs.Prelude.{◌≡◌};
ghost use Rattle.stations.specs.Paper.{paper_refusal};
ghost use Rattle.stations.specs.Station.{is_version, out_of_range};

use basis::numbered::Numbered;
use basis::units::Page;
use image::hex::is_rule_set;

/// The last page of the short board, for which stations are: a record of version 1 reads as this last page.
pub const LAST_PAGE: u32 = 123;

/// A station's settings: record version 1 or 2, station number, run kind (0 reset, 1 jump, 2 hold), rule set 1 or 2
/// for hex files, and the pages `first` to `last` that a session may touch. Each field is a number as it came, so
/// that C may pass any, and one out of range is told.
#[derive(Clone, Copy, Debug, PartialEq, Eq)]
pub struct Station {
    pub version: u32,
    pub number: u32,
    pub run: u32,
    pub rules: u32,
    pub first: Page,
    pub last: Page,
}

/// Why a record or a table is refused.
#[derive(Clone, Copy, Debug, PartialEq, Eq)]
pub enum Refusal {
    /// 20: a table or a buffer of a wrong size.
    Size = 20,
    /// 60: there is no such station, or no such place.
    Unknown = 60,
    /// 61: no place is free.
    Full = 61,
    /// 62: a version that is neither 1 nor 2.
    Version = 62,
    /// 63: no record, or a field out of range.
    Unfit = 63,
}

impl Numbered for Refusal {
    ghost number_of = { paper_refusal };

    /// Its number among the product's refusals: 20, or 60 to 63.
    fn number(self) -> u32 {
        self as u32
    }
}

impl Station {
    /// Whether a field is out of range: a number of more than two bytes, a run kind or a rule set that there is not,
    /// a page past the board's last, or a first page above the last.
    #[tactic(auto, unfolding(crate::specs::Station::out_of_range))]
    pub fn out_of_range(self) -> bool
        ensures { result ≡ out_of_range self }
    {
        65536 <= self.number
            || 2 < self.run
            || !is_rule_set(self.rules)
            || LAST_PAGE < self.last.0
            || self.last.0 < self.first.0
    }
}

/// Whether records have such a version.
pub fn is_version(version: u32) -> bool
    ensures { result ≡ is_version version }
{
    matches!(version, 1 | 2)
}
