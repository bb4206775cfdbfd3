// The plain session: at each step it lists every packet of the file afresh, and picks the next by number.
#![tactic(auto)]

mod list;
pub mod plain;
mod sending;
pub mod stage;
