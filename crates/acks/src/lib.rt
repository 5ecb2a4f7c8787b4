// What the calls of acknowledgments stand on: the counters of an end, what every call tries first (`gate`, `home`) and what it
// does once nothing is refused (`steps`). Read `Acknowledgment` and specs/State.antt first. What an end is asked is here too:
// `packets_in_flight`, `ack_bitfield`. It leaves out the calls that change what is lent: those are `acknowledgment`, where a
// user finds all of it.
#![tactic(auto)]

ghost use Rattle.std.specs.Prelude.{◌≡◌, length};
ghost use Rattle.sequence_buffer.specs.Buffer.{fresh};
ghost use Rattle.received.specs.Field.{newest_of};
ghost use Rattle.acks.specs.State.{fresh_counters};
ghost use Rattle.acks.specs.Questions.{counted_of, told_of};

use serial::PacketNumber;
use terms::{Refusal, Sizes};

pub mod gate;
pub mod home;
pub mod steps;

// The small counters of an end.
#[derive(Clone, Copy)]
pub struct Acknowledgment {
    // The number of the next packet.
    pub sequence_number: PacketNumber,
    // The newest number that the other end has acknowledged.
    pub remote_ack_sequence_num: PacketNumber,
    // The number after the newest in the received record.
    pub received: PacketNumber,
}

// A fresh end: nothing received, nothing in flight.
pub fn new(received: &mut [u32], number: &mut [u32]) -> Acknowledgment
    ensures value { result ≡ fresh_counters }
    ensures received_after { received.new ≡ fresh (length received.old) }
    ensures number_after { number.new ≡ fresh (length number.old) }
{
    let first = sequence_buffer::new(number);
    Acknowledgment {
        sequence_number: first,
        remote_ack_sequence_num: PacketNumber(65535),
        received: sequence_buffer::new(received),
    }
}

impl Acknowledgment {
    // The number of the next packet.
    pub fn local_sequence_num(self) -> PacketNumber
        ensures { result ≡ self.sequence_number }
    {
        self.sequence_number
    }

    // The newest number received, as it is told.
    pub fn remote_sequence_num(self) -> PacketNumber
        ensures { result.0 ≡ newest_of self.received.0 }
    {
        received::remote_sequence_num(self.received)
    }
}

// How many packets are in flight.
pub fn packets_in_flight(sizes: Sizes, number: &[u32], records: &[u32]) -> Result<usize, Refusal>
    ensures { result ≡ counted_of sizes number.now records.now }
{
    if !sizes.in_range() {
        return Err(Refusal::BadSizes);
    }
    if !gate::is_flight_lent(sizes, number, records) {
        return Err(Refusal::BadStorage);
    }
    let table = &number[..sizes.packets_in_flight];
    if !flight_home::home::is_sound(table, 16 * sizes.fragment_size) {
        return Err(Refusal::BadState);
    }
    Ok(flight::places::count(table))
}

// Which of the 32 numbers before `remote_sequence_num` have come.
pub fn ack_bitfield(sizes: Sizes, state: Acknowledgment, received: &[u32]) -> Result<u32, Refusal>
    ensures { result ≡ told_of sizes state received.now }
{
    if !sizes.in_range() {
        return Err(Refusal::BadSizes);
    }
    if received.len() < received::SLOTS {
        return Err(Refusal::BadStorage);
    }
    let lapped = home::is_lapped(received);
    if !home::is_record_sound(received, lapped) {
        return Err(Refusal::BadState);
    }
    Ok(received::ack_bitfield(state.received, received, lapped))
}
