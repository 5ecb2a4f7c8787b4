// Acknowledgments: which packets have come, which are in flight, and which of those are given up as dropped.
// A user calls `process_outgoing` for each reliable packet sent, `process_incoming` for each that comes, and
// `dropped_packets` until it gives nothing. The counters go by value; the columns and the bytes are lent. The counters, a
// fresh end and the questions are of `acks`, and have their names here too. It leaves out what is in a datagram, and when a
// packet is sent again: that is the link.
#![tactic(auto)]

ghost use Rattle.std.specs.Prelude.{◌≡◌, true, ◌≤◌, length};
ghost use Rattle.terms.specs.Sizes.{in_range};
ghost use Rattle.received.specs.Record.{slot_count};
ghost use Rattle.acks.specs.State.{lending};
ghost use Rattle.acks.specs.Gate.{lent};
ghost use Rattle.acknowledgment.specs.Gate.{opened, Judged};
ghost use Rattle.acknowledgment.specs.Calls.{Incoming, Outgoing, Dropping};

pub use acks::{Acknowledgment, ack_bitfield, new, packets_in_flight};
use flight::SentPacket;
use flight::lost::Dropped;
use serial::PacketNumber;
use terms::{Refusal, Sizes};

// A packet has come: its number, the number that it acknowledges, and the field of those before that.
pub fn process_incoming(
    sizes: Sizes,
    state: Acknowledgment,
    received: &mut [u32],
    number: &mut [u32],
    records: &[u32],
    bytes: &[u8],
    packet: PacketNumber,
    acked: PacketNumber,
    field: u32,
) -> Result<Acknowledgment, Refusal>
    ensures { Incoming sizes (lending state received.old number.old records.now bytes.now) packet.0 acked.0 field result received.new number.new }
{
    lent(sizes, received, number, records, bytes)?;
    let at_home = sound(sizes, state.sequence_number, received, number)?;
    let n = sizes.packets_in_flight;
    Ok(acks::steps::incoming(
        state,
        received,
        &mut number[..n],
        packet,
        acked,
        field,
        at_home,
    ))
}

// A reliable packet is sent: what is kept of it, and its payload. It has the number `local_sequence_num`.
pub fn process_outgoing(
    sizes: Sizes,
    state: Acknowledgment,
    received: &[u32],
    number: &mut [u32],
    records: &mut [u32],
    bytes: &mut [u8],
    sent: SentPacket,
    payload: &[u8],
) -> Result<Acknowledgment, Refusal>
    ensures { Outgoing sizes (lending state received.now number.old records.old bytes.old) sent payload.now result number.new records.new bytes.new }
{
    lent(sizes, received, number, records, bytes)?;
    let at_home = sound(sizes, state.sequence_number, received, number)?;
    if acks::gate::is_too_long(sizes, sent, payload.len()) {
        return Err(Refusal::TooLong);
    }
    if sizes.max_fragments * sizes.fragment_size < payload.len() {
        return Err(Refusal::ExceededMaxFragments);
    }
    let n = sizes.packets_in_flight;
    let packet = state.sequence_number;
    let Some(at) = flight_home::direct::place(&number[..n], packet, at_home) else {
        return Err(Refusal::Full);
    };
    let room = 16 * sizes.fragment_size;
    flight::store(number, records, bytes, room, at, packet, sent, payload);
    Ok(acks::steps::sent(state))
}

// Gives up one packet: its payload is written at the output's start.
pub fn dropped_packets(
    sizes: Sizes,
    state: Acknowledgment,
    received: &[u32],
    number: &mut [u32],
    records: &[u32],
    bytes: &[u8],
    output: &mut [u8],
) -> Result<Option<Dropped>, Refusal>
    ensures { Dropping sizes (lending state received.now number.old records.now bytes.now) output.old result number.new output.new }
{
    lent(sizes, received, number, records, bytes)?;
    let room = 16 * sizes.fragment_size;
    if output.len() < room + 17 {
        return Err(Refusal::BadStorage);
    }
    sound(sizes, state.sequence_number, received, number)?;
    let n = sizes.packets_in_flight;
    let remote = state.remote_ack_sequence_num;
    Ok(flight::lost::drop_one(&mut number[..n], records, bytes, room, remote, output))
}

// 1 and 2 of what every call is lent.
fn lent(
    sizes: Sizes,
    received: &[u32],
    number: &[u32],
    records: &[u32],
    bytes: &[u8],
) -> Result<(), Refusal>
    ensures { result ≡ opened sizes (lent sizes received.now number.now records.now bytes.now) }
{
    if !sizes.in_range() {
        return Err(Refusal::BadSizes);
    }
    if !acks::gate::is_lent(sizes, received, number, records, bytes) {
        return Err(Refusal::BadStorage);
    }
    Ok(())
}

// 13, and then whether the packets in flight are seen to be at home. Requires sizes in range, and what is lent to be as long
// as stated.
fn sound(
    sizes: Sizes,
    next: PacketNumber,
    received: &[u32],
    number: &[u32],
) -> Result<bool, Refusal>
    requires { (in_range sizes ≡ true) × (slot_count ≤ length received.now) × (sizes.packets_in_flight ≤ length number.now) }
    ensures { Judged sizes received.now number.now result }
{
    let at_home = acks::home::is_home(sizes, next, number);
    if !acks::home::is_sound(sizes, received, number, at_home) {
        return Err(Refusal::BadState);
    }
    Ok(at_home)
}
