// The packet: bytes turned for V, the command table, the builder and the reader.
#![tactic(auto)]

pub mod build;
pub mod read;
pub mod table;
pub mod turn;
