// Packets in order: which packets a file has, what follows what, and each as it is sent.
#![tactic(auto)]

pub mod counts;
pub mod cursor;
pub mod sending;
pub mod sizes;
pub mod step;
pub mod steps;
