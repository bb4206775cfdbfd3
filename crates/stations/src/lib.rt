//! Station settings: a station, its record in two versions, and a table of 64 places.
#![tactic(auto)]

pub mod record;
pub mod station;
pub mod table;
