// The receiver: fed one byte at a time, it hunts for the start of a packet and hands the packet on.
#![tactic(auto)]

pub mod receiver;
