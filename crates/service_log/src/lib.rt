// The service log: one record about a session that has ended, written and read.
#![tactic(auto)]

mod big;
pub mod read;
pub mod truth;
pub mod write;
