// What a user asks of an end.
ghost use Rattle.std.specs.Prelude.{◌≡◌};
ghost use Rattle.ends.specs.State.{lending};
ghost use Rattle.link.specs.Calls.{report_of};

use ends::{End, gate};
use serial::PacketNumber;
use terms::{Refusal, Sizes};

#[derive(Clone, Copy)]
pub struct Status {
    pub packets_in_flight: usize,
    // The number of the next reliable packet.
    pub local_sequence_num: PacketNumber,
    // The newest number received, as it is told, and which of the 32 before it have come.
    pub remote_sequence_num: PacketNumber,
    pub ack_bitfield: u32,
}

pub fn report(
    sizes: Sizes,
    end: End,
    received: &[u32],
    number: &[u32],
    records: &[u32],
    payloads: &[u8],
    slots: &[u32],
    entry: &[u64],
    header: &[u64],
    joined: &[u8],
    index: &[u32],
    lengths: &[u16],
    held: &[u8],
    output: &[u8],
) -> Result<Status, Refusal>
    ensures { result ≡ report_of sizes (lending end received.now number.now records.now payloads.now slots.now entry.now header.now joined.now index.now lengths.now held.now) output.now }
{
    let seen = gate::look(
        sizes, end, received, number, records, payloads, slots, entry, header, joined, index,
        lengths, held, output,
    )?;
    let acks = end.acks;
    let local_sequence_num = acks.sequence_number;
    Ok(Status {
        packets_in_flight: flight::places::count(&number[..sizes.packets_in_flight]),
        local_sequence_num,
        remote_sequence_num: acks.remote_sequence_num(),
        ack_bitfield: received::ack_bitfield(acks.received, received, seen.lapped),
    })
}
