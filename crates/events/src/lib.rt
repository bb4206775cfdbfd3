// What comes back from the board, and how a session goes on or ends by it.
#![tactic(auto)]

pub mod ending;
pub mod event;
pub mod refusal;
