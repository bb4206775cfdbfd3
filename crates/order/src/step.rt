// The steps: one packet of a file each.
use basis::units::{Address, Page};

/// E for the run at a page, W or V for the piece at an address, R.
#[derive(Clone, Copy, Debug, PartialEq, Eq)]
pub enum Step {
    Erase(Page),
    Write(Address),
    Verify(Address),
    Run,
}
