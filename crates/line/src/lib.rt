// Loader and session joined by a line that loses packets and answers: one exchange, and a whole rehearsal.
#![tactic(auto)]

pub mod exchange;
pub mod rehearse;
