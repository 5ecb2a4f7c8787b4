// The further datagrams of an item that goes as fragments.
ghost use Rattle.std.specs.Prelude.{◌≡◌, ◌≤◌, ◌<◌, length, Ok};
ghost use Rattle.flight_home.specs.AtHome.{KnownHome};
ghost use Rattle.acks.specs.State.{table_of};
ghost use Rattle.ends.specs.State.{lending};
ghost use Rattle.ends.specs.Gate.{gate_of};
ghost use Rattle.received.specs.Record.{slot_count, KnownLapped};
ghost use Rattle.packet_table.specs.Table.{follows};
ghost use Rattle.datagrams.specs.Further.{fragment_standard, further_of, further_output, further_headers};

use crate::acknowledge;
use acks::Acknowledgment;
use ends::End;
use packet::table::Following;
use packet::{
    ArrangingHeader, DeliveryGuarantee, FragmentHeader, Headers, OrderingGuarantee, PacketType,
    StandardHeader, builder, table,
};
use serial::{ItemId, PacketNumber};
use terms::{Refusal, Sizes};

// Fragment j of a packet in flight whose payload is over F. For the crates above: requires an end that the gate lets through,
// and what is said of it: packets in flight at home, a record in laps.
pub fn fragment(
    sizes: Sizes,
    end: End,
    received: &[u32],
    number: &[u32],
    records: &[u32],
    payloads: &[u8],
    slots: &[u32],
    entry: &[u64],
    header: &[u64],
    joined: &[u8],
    index: &[u32],
    lengths: &[u16],
    held: &[u8],
    packet: PacketNumber,
    j: usize,
    output: &mut [u8],
    home: bool,
    lapped: bool,
) -> Result<Option<usize>, Refusal>
    requires { (gate_of sizes (lending end received.now number.now records.now payloads.now slots.now entry.now header.now joined.now index.now lengths.now held.now) output.old ≡ Ok tt) × KnownHome home (table_of sizes number.now) × KnownLapped lapped received.now }
    ensures value { result ≡ further_of sizes end.acks received.now number.now payloads.now packet.0 j }
    ensures output_after { output.new ≡ further_output sizes end.acks received.now number.now payloads.now packet.0 j output.old }
{
    let f = sizes.fragment_size;
    let n = sizes.packets_in_flight;
    let Some(at) = flight_home::direct::find(&number[..n], packet, home) else {
        return Ok(None);
    };
    let count = flight::entry::payload_length(number[at]);
    if count <= f {
        return Ok(None);
    }
    let total = splitter::fragments_needed(count, f);
    if total <= j {
        return Ok(None);
    }
    let start = at * (16 * f);
    let piece = splitter::fragment(&payloads[start..start + count], f, j);
    let following = table::headers_after(standard());
    let headers = headers(following, end.acks, received, packet, j, total, lapped);
    Ok(Some(builder::write(sizes.version, following, headers, piece, output)))
}

fn standard() -> StandardHeader
    ensures { result ≡ fragment_standard }
{
    StandardHeader {
        packet_type: PacketType::Fragment,
        delivery: DeliveryGuarantee::Reliable,
        ordering: OrderingGuarantee::None,
    }
}

// Only fragment 0 has the acknowledgment header, as it is at the time of the call. Requires what the table has for a fragment.
fn headers(
    following: Following,
    acks: Acknowledgment,
    received: &[u32],
    number: PacketNumber,
    j: usize,
    total: usize,
    lapped: bool,
) -> Headers
    requires { (following ≡ follows fragment_standard) × (slot_count ≤ length received.now) × (j < 256) × (total < 256) × KnownLapped lapped received.now }
    ensures { result ≡ further_headers acks received.now number j total }
{
    let id = j as u8;
    Headers {
        standard: standard(),
        fragment: FragmentHeader {
            number,
            id,
            count: total as u8,
        },
        acked: acknowledge(following, id, number, acks, received, lapped),
        arranging: ArrangingHeader {
            index: ItemId(0),
            stream: 0,
        },
    }
}
