// The image library: flash as bytes that are erased and stored, and the hex file, read and written.
#![tactic(auto)]

pub mod digits;
pub mod flash;
pub mod hex;
pub mod record;
pub mod writer;
