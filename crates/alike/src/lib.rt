// The plain session beside the quick one: its log record, and that both are alike.
#![tactic(auto)]

pub mod log;
