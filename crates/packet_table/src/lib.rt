// What the headers of a datagram are, and the one table of which of them follow the standard one.
// Read `table::headers_after` first; numbers.rt has the numbers in a datagram's bytes, high byte first. It leaves out whole
// datagrams, which the crate `packet` reads and builds over this table.
#![tactic(auto)]

use serial::{ItemId, PacketNumber};

pub mod numbers;
pub mod table;

// The bytes of each header.
pub const STANDARD_HEADER_SIZE: usize = 5;

pub const FRAGMENT_HEADER_SIZE: usize = 4;

pub const ACKED_PACKET_HEADER: usize = 8;

pub const ARRANGING_PACKET_HEADER: usize = 3;

// How a packet should be delivered. Of this and the next two the numbers are those on the wire.
#[derive(Clone, Copy, Debug, PartialEq, Eq)]
pub enum DeliveryGuarantee {
    Unreliable = 0,
    Reliable = 1,
}

// How a packet should be arranged.
#[derive(Clone, Copy, Debug, PartialEq, Eq)]
pub enum OrderingGuarantee {
    None = 0,
    Sequenced = 1,
    Ordered = 2,
}

// What a datagram is.
#[derive(Clone, Copy, Debug, PartialEq, Eq)]
pub enum PacketType {
    Packet = 0,
    Fragment = 1,
    Heartbeat = 2,
}

// The header of every datagram, but for the version word.
#[derive(Clone, Copy, Debug, PartialEq, Eq)]
pub struct StandardHeader {
    pub packet_type: PacketType,
    pub delivery: DeliveryGuarantee,
    pub ordering: OrderingGuarantee,
}

// `number` is the packet's that the fragment is a part of.
#[derive(Clone, Copy)]
pub struct FragmentHeader {
    pub number: PacketNumber,
    pub id: u8,
    pub count: u8,
}

// `acked` is the newest number that the other end has received, and bit i - 1 of `field` says that it has the one i before it.
#[derive(Clone, Copy)]
pub struct AckedPacketHeader {
    pub number: PacketNumber,
    pub acked: PacketNumber,
    pub field: u32,
}

// The item's place among those of its stream.
#[derive(Clone, Copy)]
pub struct ArrangingHeader {
    pub index: ItemId,
    pub stream: u8,
}

// A header that does not follow has 0 in every field. None is an Option: the theorems of `packet_laws` and the tables of a link
// have the zeros.
#[derive(Clone, Copy)]
pub struct Headers {
    pub standard: StandardHeader,
    pub fragment: FragmentHeader,
    pub acked: AckedPacketHeader,
    pub arranging: ArrangingHeader,
}
