// A whole load with rubbish between its packets: one exchange, and a rehearsal.
#![tactic(auto)]

mod exchange;
pub mod rehearse;
