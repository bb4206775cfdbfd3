// What every part stands on: the board, the three units, run kinds, numbered refusals, lent buffers,
// and the sum of bytes.
#![tactic(auto)]

pub mod board;
pub mod buffers;
pub mod kind;
pub mod numbered;
pub mod sums;
pub mod units;
