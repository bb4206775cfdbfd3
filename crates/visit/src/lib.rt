//! What is done for a station: its file opened under its rule set, its session started within its bounds.
#![tactic(auto)]

pub mod open;
pub mod start;
