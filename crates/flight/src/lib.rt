// The packets in flight. Each place of the table has a word with the number of a packet and the length of its payload, or none;
// the packet's record and its payload; an entry keeps its place. The caller lends the columns and the bytes: place k has its
// payload at k times the bytes of a slot. Read `store` first. Every function here is for the crates above: which numbers are
// counted, acknowledged and dropped, and nothing of when that happens. A number is looked for at every place here; where each
// packet stands at its own place, `flight_home` has the quick ways.
#![tactic(auto)]

ghost use Rattle.std.specs.Prelude.{◌≡◌, ◌+◌, ◌*◌, ◌<◌, ◌≤◌, length, slice_set};
ghost use Rattle.std.proofs.Math.Seq.{paste};
ghost use Rattle.flight.specs.Entry.{word_of, packed};
ghost use Rattle.flight.specs.View.{FlightFacts};

use serial::{ItemId, PacketNumber};

pub mod acked;
pub mod entry;
pub mod lost;
pub mod places;

// What is kept of a packet beside its payload, and given back where it is dropped.
#[derive(Clone, Copy)]
pub struct SentPacket {
    pub ordering: u8,
    pub stream: u8,
    pub item: ItemId,
}

// Stores a packet at a place. Requires a payload that fits its slot, and the place in each column.
pub fn store(
    number: &mut [u32],
    records: &mut [u32],
    bytes: &mut [u8],
    room: usize,
    at: usize,
    packet: PacketNumber,
    sent: SentPacket,
    payload: &[u8],
)
    requires { (at < length number.old) × (at < length records.old) × (at * room + room ≤ length bytes.old) × (length payload.now ≤ room) × (length payload.now < 32768) }
    ensures number_after { number.new ≡ slice_set number.old at (word_of packet.0 (length payload.now)) }
    ensures records_after { records.new ≡ slice_set records.old at (packed sent) }
    ensures bytes_after { bytes.new ≡ paste bytes.old (at * room) payload.now (length payload.now) }
{
    let start = at * room;
    let count = payload.len();
    copying::copy(payload, &mut bytes[start..start + count]);
    number[at] = entry::word(packet, count);
    records[at] = entry::pack(sent);
}

// What each call makes of the packets in flight, number by number. It has no code: its contract is the theorem.
#[tactic(auto, using(crate::proofs::Given::facts))]
pub fn flight_facts()
    ensures { FlightFacts }
{}
