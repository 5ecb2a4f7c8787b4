// The datagrams of an item that is sent: its only one, or its fragments. Read `first` first; further.rt writes the further ones,
// from what is in flight. It leaves out whether the item is refused, and what sending it makes of an end, which are `sending`.
#![tactic(auto)]

ghost use Rattle.std.specs.Prelude.{◌≡◌, ◌≤◌, ◌<◌, length, take};
ghost use Rattle.received.specs.Record.{slot_count, KnownLapped};
ghost use Rattle.packet_table.specs.Table.{follows};
ghost use Rattle.packet.specs.Build.{Writes};
ghost use Rattle.datagrams.specs.Datagrams.{acked_for, type_for, standard_for, headers_for, datagram_for, count_of, Room};

use acks::Acknowledgment;
use packet::table::Following;
use packet::{
    AckedPacketHeader, ArrangingHeader, DeliveryGuarantee, FragmentHeader, Headers,
    OrderingGuarantee, PacketType, StandardHeader, builder, table,
};
use serial::{ItemId, PacketNumber};

pub mod further;

// The identifier of an item on its stream: the next one, or the one that it had.
#[derive(Clone, Copy)]
pub enum Identifier {
    Next,
    Again(ItemId),
}

// What is asked of an item. `stream` and `identifier` are those of an ordered or sequenced one.
#[derive(Clone, Copy)]
pub struct Item {
    pub delivery: DeliveryGuarantee,
    pub ordering: OrderingGuarantee,
    pub stream: u8,
    pub identifier: Identifier,
}

// The datagram that an item is, or its first, at the start of the output, and its length. Requires room for it.
pub fn first(
    version: u16,
    f: usize,
    item: Item,
    id: ItemId,
    acks: Acknowledgment,
    received: &[u32],
    payload: &[u8],
    output: &mut [u8],
    lapped: bool,
) -> usize
    requires { (slot_count ≤ length received.now) × (1 ≤ f) × (f ≤ 1024) × (count_of f (length payload.now) < 256) × Room (headers_for f item id acks received.now (length payload.now)) (take f payload.now) output.old × KnownLapped lapped received.now }
    ensures { Writes (datagram_for version f item id acks received.now payload.now) output.old result output.new }
{
    let following = table::headers_after(standard(f, item, payload.len()));
    let headers = headers(
        following,
        f,
        item,
        id,
        acks,
        received,
        payload.len(),
        lapped,
    );
    builder::write(version, following, headers, first_piece(f, payload), output)
}

// The headers of an item's first datagram. Those that do not follow are not written. Requires what the table has for them.
fn headers(
    following: Following,
    f: usize,
    item: Item,
    id: ItemId,
    acks: Acknowledgment,
    received: &[u32],
    size: usize,
    lapped: bool,
) -> Headers
    requires { (following ≡ follows (standard_for f item size)) × (slot_count ≤ length received.now) × (1 ≤ f) × (f ≤ 1024) × (count_of f size < 256) × KnownLapped lapped received.now }
    ensures { result ≡ headers_for f item id acks received.now size }
{
    let number = acks.sequence_number;
    Headers {
        standard: standard(f, item, size),
        fragment: FragmentHeader {
            number,
            id: 0,
            count: count(f, size) as u8,
        },
        acked: acknowledge(following, 0, number, acks, received, lapped),
        arranging: ArrangingHeader {
            index: id,
            stream: item.stream,
        },
    }
}

// What an end tells of the packets that it has received, in a packet of its own. Where the datagram has no such header, the
// field is not made: zeros stand for it, and are not written.
pub fn acknowledge(
    following: Following,
    id: u8,
    number: PacketNumber,
    acks: Acknowledgment,
    received: &[u32],
    lapped: bool,
) -> AckedPacketHeader
    requires { (slot_count ≤ length received.now) × KnownLapped lapped received.now }
    ensures { result ≡ acked_for following id number acks received.now }
{
    if table::has_acked(following, id) {
        return AckedPacketHeader {
            number,
            acked: acks.remote_sequence_num(),
            field: received::ack_bitfield(acks.received, received, lapped),
        };
    }
    AckedPacketHeader {
        number: PacketNumber(0),
        acked: PacketNumber(0),
        field: 0,
    }
}

fn standard(f: usize, item: Item, size: usize) -> StandardHeader
    ensures { result ≡ standard_for f item size }
{
    let delivery = item.delivery;
    let ordering = item.ordering;
    StandardHeader {
        packet_type: packet_type(f, size),
        delivery,
        ordering,
    }
}

// An item goes as fragments exactly where it is over F.
fn packet_type(f: usize, size: usize) -> PacketType
    ensures { result ≡ type_for f size }
{
    if f < size {
        return PacketType::Fragment;
    }
    PacketType::Packet
}

// How many datagrams an item is.
pub fn count(f: usize, size: usize) -> usize
    requires { (1 ≤ f) × (f ≤ 1024) }
    ensures { result ≡ count_of f size }
{
    if size <= f {
        return 1;
    }
    splitter::fragments_needed(size, f)
}

// What the first of them has of the payload.
fn first_piece(f: usize, payload: &[u8]) -> &[u8]
    ensures { result.now ≡ take f payload.now }
{
    if f < payload.len() {
        return &payload[..f];
    }
    payload
}
