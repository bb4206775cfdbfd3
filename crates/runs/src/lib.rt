// The map of named addresses, the file that has one, and the runs and pieces that it has.
#![tactic(auto)]

pub mod file;
pub mod map;
pub mod pages;
pub mod places;
pub mod survey;
pub mod tally;
pub mod walks;
pub mod words;
