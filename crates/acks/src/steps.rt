// What a call does once nothing is refused.
ghost use Rattle.std.specs.Prelude.{◌≡◌, map, ◌≤◌, length};
ghost use Rattle.sequence_buffer.specs.Buffer.{emptied};
ghost use Rattle.received.specs.Record.{slot_count, recorded};
ghost use Rattle.flight.specs.Acked.{is_told};
ghost use Rattle.flight_home.specs.AtHome.{KnownHome};
ghost use Rattle.acks.specs.State.{newer_of, heard, sent_one};

use crate::Acknowledgment;
use serial::PacketNumber;

// A packet has come: it is recorded, and what it acknowledges leaves flight. For the crates above: requires the slots of
// the received record, and the packets in flight, no more, at home where they are said to be.
pub fn incoming(
    state: Acknowledgment,
    received: &mut [u32],
    number: &mut [u32],
    packet: PacketNumber,
    acked: PacketNumber,
    field: u32,
    at_home: bool,
) -> Acknowledgment
    requires { (slot_count ≤ length received.old) × KnownHome at_home number.old }
    ensures value { result ≡ heard state received.old packet.0 acked.0 }
    ensures received_after { received.new ≡ recorded state.received.0 received.old packet.0 }
    ensures number_after { number.new ≡ map (emptied (is_told acked.0 field)) number.old }
{
    let sequence_number = state.sequence_number;
    let before = state.remote_ack_sequence_num;
    let inserted = received::receive(state.received, received, packet);
    let sequence_num = inserted.sequence_num;
    flight_home::direct::remove(number, acked, field, at_home);
    Acknowledgment {
        sequence_number,
        remote_ack_sequence_num: newer(acked, before),
        received: sequence_num,
    }
}

// The number that is acknowledged, where it is greater than the one before.
fn newer(acked: PacketNumber, before: PacketNumber) -> PacketNumber
    ensures { result ≡ newer_of acked before }
{
    if serial::sequence_greater_than(acked.0, before.0) {
        return acked;
    }
    before
}

// The next packet has the next number. For the crates above, beside `flight::store`.
pub fn sent(state: Acknowledgment) -> Acknowledgment
    ensures { result ≡ sent_one state }
{
    let number = state.sequence_number;
    let remote_ack_sequence_num = state.remote_ack_sequence_num;
    let received = state.received;
    Acknowledgment {
        sequence_number: number.successor(),
        remote_ack_sequence_num,
        received,
    }
}
