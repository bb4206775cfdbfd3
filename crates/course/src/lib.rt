// A session's start, steps and marks, whatever it keeps of its place in the file.
#![tactic(auto)]

pub mod course;
pub mod state;
