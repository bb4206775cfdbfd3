// The session that keeps a cursor: each step goes on from the one before.
use crate::phase::Phase;
use course::state::{self, State};

/// The host's session, whose place is a cursor in the file.
pub type Session = State<Phase>;

/// Its next state, with the length of the packet that stands in the buffer.
pub type Next = state::Next<Phase>;
