// The receiver for C: a byte is fed to it where it stands; a stretch of bytes by value.
ghost use Rattle.std.specs.Prelude.{◌≡◌};
ghost use Rattle.gremolunde.specs.Answers.{received_answer};
ghost use Rattle.receiver.specs.Receiver.{fresh, byte_of, bytes_of};

use receiver::receiver::Receiver;

/// The length of the packet that stands in the receiver, 0 where there is none, and how many bytes were taken.
#[repr(C)]
#[derive(Clone, Copy)]
pub struct Received {
    pub packet: usize,
    pub taken: usize,
    pub receiver: Receiver,
}

/// A receiver that has gathered nothing.
#[unsafe(no_mangle)]
pub extern "C" fn gremolunde_receiver_new() -> Receiver
    ensures { result ≡ fresh }
{
    Receiver::new()
}

/// One byte: the length of the packet that it completes, else 0. The receiver stays in the storage of the interrupt
/// that feeds it.
#[unsafe(no_mangle)]
pub extern "C" fn gremolunde_receiver_byte(receiver: &mut Receiver, byte: u8) -> usize
    ensures receiver { receiver.new ≡ (byte_of receiver.old byte).receiver }
    ensures packet { result ≡ (byte_of receiver.old byte).packet }
{
    let next = receiver.byte(byte);
    *receiver = next.receiver;
    next.packet
}

/// Bytes as they came, up to and with the one that completes a packet.
#[unsafe(no_mangle)]
pub extern "C" fn gremolunde_receiver_bytes(receiver: Receiver, bytes: &[u8]) -> Received
    ensures { result ≡ received_answer (bytes_of receiver bytes.now) }
{
    let stretch = receiver.bytes(bytes);
    Received {
        packet: stretch.packet,
        taken: stretch.taken,
        receiver: stretch.receiver,
    }
}
