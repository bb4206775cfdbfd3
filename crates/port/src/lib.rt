// The port: a loader behind a receiver. Bytes go in as they come from the line, answers come out.
#![tactic(auto)]

pub mod port;
