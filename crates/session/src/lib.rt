// The host session: what the host sends for a file, answer by answer.
#![tactic(auto)]

pub mod phase;
pub mod session;
