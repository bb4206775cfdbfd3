// The loader: packets to answers, flash and protection. An input is judged first, which only reads;
// what it then does is done in one place.
#![tactic(auto)]

mod deed;
mod erase;
mod judge;
mod protect;
pub mod protection;
mod run;
pub mod state;
pub mod take;
pub mod verdict;
mod verify;
mod write;
