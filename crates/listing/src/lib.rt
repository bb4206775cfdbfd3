// Text in, text out: hex text to a file, a file to the lines of its plan, a log record to its line.
#![tactic(auto)]

pub mod lines;
pub mod log;
pub mod numbers;
pub mod plan;
pub mod refusals;
pub mod sheets;
pub mod text;
