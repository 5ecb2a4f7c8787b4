// One end of a link, whole: its small counters, which go by value, and the tables and bytes that its owner lends at every call.
// Read `End` and specs/State.antt first; `gate::check` is what every call of a user tries first. It leaves out what a datagram
// does to an end: that is `receiving` and `sending`.
#![tactic(auto)]

ghost use Rattle.std.specs.Prelude.{◌≡◌, length};
ghost use Rattle.sequence_buffer.specs.Buffer.{fresh};
ghost use Rattle.ends.specs.State.{fresh_end};

use acks::Acknowledgment;
use arranging::ordered::OrderingStreams;
use arranging::sequenced::SequencingStreams;
use serial::PacketNumber;

pub mod gate;

#[derive(Clone, Copy)]
pub struct End {
    pub acks: Acknowledgment,
    // The number after the newest message that was put together, or is.
    pub reassembly: PacketNumber,
    pub ordering: OrderingStreams,
    pub sequencing: SequencingStreams,
}

// The counters of a fresh end.
pub fn fresh() -> End
    ensures { result ≡ fresh_end }
{
    End {
        acks: Acknowledgment {
            sequence_number: PacketNumber(0),
            remote_ack_sequence_num: PacketNumber(65535),
            received: PacketNumber(0),
        },
        reassembly: PacketNumber(0),
        ordering: OrderingStreams::none(),
        sequencing: SequencingStreams::none(),
    }
}

// A fresh end: nothing received, in flight or put together, and no streams. What else is lent may hold anything.
pub fn new(received: &mut [u32], number: &mut [u32], slots: &mut [u32]) -> End
    ensures value { result ≡ fresh_end }
    ensures received_after { received.new ≡ fresh (length received.old) }
    ensures number_after { number.new ≡ fresh (length number.old) }
    ensures slots_after { slots.new ≡ fresh (length slots.old) }
{
    let acks = acks::new(received, number);
    let reassembly = sequence_buffer::new(slots);
    End {
        acks,
        reassembly,
        ordering: OrderingStreams::none(),
        sequencing: SequencingStreams::none(),
    }
}
