// A receiver hunts for 07 0E, gathers N + 4 bytes, and hands on the packet.
ghost use Rattle.std.specs.Prelude.{◌≡◌, [], ◌∷◌, ◌++◌, ◌≤◌, ◌<◌};
ghost use Rattle.packet.specs.Packet.{packet_most};
ghost use Rattle.receiver.specs.Hearing.{hunted, gathering};
ghost use Rattle.receiver.specs.Receiver.{fresh, emptied, gathered, stored, keeping, giving, byte_of, bytes_of};

use packet::build::PACKET;
use packet::table::{NEXT_START, START};

/// A receiver, whatever stands in it.
///
/// The first `len` bytes are gathered; a packet that was just handed on stands at the start, with a `len` of 0.
// A length beside its bytes: C holds the struct, and there is no heap.
#[repr(C)]
#[derive(Clone, Copy, Debug, PartialEq, Eq)]
pub struct Receiver {
    pub bytes: [u8; PACKET],
    pub len: usize,
}

/// The receiver after a byte, and how many bytes the packet has that stands in it, 0 where none is handed on.
// No `Option`: C gets this number, and the laws of `byte_of` speak of it; no packet has 0 bytes.
#[derive(Clone, Copy, Debug, PartialEq, Eq)]
pub struct Received {
    pub receiver: Receiver,
    pub packet: usize,
}

/// The same after so many bytes.
#[derive(Clone, Copy, Debug, PartialEq, Eq)]
pub struct Stretch {
    pub receiver: Receiver,
    pub packet: usize,
    pub taken: usize,
}

impl Receiver {
    /// Nothing is gathered, and all bytes are 0.
    pub fn new() -> Receiver
        ensures { result ≡ fresh }
    {
        Receiver {
            bytes: [0; PACKET],
            len: 0,
        }
    }

    /// One byte more. A packet is handed on with the last of its N + 4 bytes, or with an N below 5.
    #[tactic(auto, unfolding(crate::specs::Hearing::hear))]
    pub fn byte(self, b: u8) -> Received
        ensures state { result ≡ byte_of self b }
        ensures fits { result.packet ≤ packet_most }
    {
        // The last byte of a packet comes behind so many.
        let last = usize::from(self.bytes[2]) + 3;
        // Each arm returns by itself: as the value of the `match` the record is copied once more.
        match self.len {
            0 => return self.hunt(b).quiet(),
            1 if b != NEXT_START => return self.hunt(b).quiet(),
            2 if b < 5 => return self.gather(b).hand(),
            1 | 2 => return self.gather(b).quiet(),
            len if len < last => return self.gather(b).quiet(),
            len if len == last => return self.gather(b).hand(),
            _ => return self.hunt(b).quiet(),
        }
    }

    /// Bytes as they came, up to and with the one that completes a packet.
    pub fn bytes(self, bytes: &[u8]) -> Stretch
        ensures state { result ≡ bytes_of self bytes.now }
        ensures fits { result.packet ≤ packet_most }
    {
        let mut receiver = self;
        for (i, b) in bytes.iter().enumerate() {
            let next = receiver.byte(*b);
            receiver = next.receiver;
            if next.packet != 0 {
                return Stretch {
                    receiver,
                    packet: next.packet,
                    taken: i + 1,
                };
            }
        }
        Stretch {
            receiver,
            packet: 0,
            taken: bytes.len(),
        }
    }

    /// What was gathered is dropped; every byte stays.
    // In place: by `..self` the record's 272 bytes are copied once more.
    pub fn emptied(mut self) -> Receiver
        ensures { result ≡ emptied self }
    {
        self.len = 0;
        self
    }

    // What was gathered is dropped; the byte may itself begin a start.
    fn hunt(mut self, b: u8) -> Receiver
        ensures { result ≡ stored self (gathering (hunted b)) }
    {
        if b == START {
            self.bytes[0] = b;
            self.len = 1;
            return self;
        }
        self.len = 0;
        self
    }

    fn gather(mut self, b: u8) -> Receiver
        requires { self.len < packet_most }
        ensures state { result ≡ stored self (gathering (gathered self ++ (b ∷ []))) }
        ensures fits { result.len ≤ packet_most }
    {
        self.bytes[self.len] = b;
        self.len += 1;
        self
    }

    // Nothing is handed on.
    fn quiet(self) -> Received
        ensures state { result ≡ keeping self }
        ensures fits { result.packet ≤ packet_most }
    {
        Received {
            receiver: self,
            packet: 0,
        }
    }

    // All that is gathered is handed on.
    fn hand(self) -> Received
        requires { self.len ≤ packet_most }
        ensures state { result ≡ giving self }
        ensures fits { result.packet ≤ packet_most }
    {
        Received {
            packet: self.len,
            receiver: self.emptied(),
        }
    }
}
