// Which headers follow the standard one: one table, for the reader and the builder.
ghost use Rattle.std.specs.Prelude.{◌≡◌};
ghost use Rattle.packet_table.specs.Table.{type_number, delivery_number, ordering_number, type_read, delivery_read, ordering_read, follows, listed, has_fragment, has_acked, has_arranging, is_heartbeat, misfit, type_of, delivery_of, ordering_of};
ghost use Rattle.packet_table.specs.Layout.{size_of, payload_at};

use crate::{
    ACKED_PACKET_HEADER, ARRANGING_PACKET_HEADER, DeliveryGuarantee, FRAGMENT_HEADER_SIZE,
    OrderingGuarantee, PacketType, STANDARD_HEADER_SIZE, StandardHeader,
};
use terms::Refusal;

// The headers that follow the standard one, in their order; a fragment's acknowledgment follows where its id is 0.
#[derive(Clone, Copy, Debug, PartialEq, Eq)]
pub enum Following {
    Unlisted,
    Nothing,
    Arranging,
    Acknowledgment,
    AcknowledgmentArranging,
    Fragment,
}

// By type, delivery and ordering: the entry at type * 6 + delivery * 3 + ordering.
const FOLLOWING: [Following; 18] = [
    Following::Nothing, // (0,0,0)
    Following::Arranging, // (0,0,1)
    Following::Unlisted, // (0,0,2)
    Following::Acknowledgment, // (0,1,0)
    Following::AcknowledgmentArranging, // (0,1,1)
    Following::AcknowledgmentArranging, // (0,1,2)
    Following::Unlisted, // (1,0,0)
    Following::Unlisted, // (1,0,1)
    Following::Unlisted, // (1,0,2)
    Following::Fragment, // (1,1,0)
    Following::Unlisted, // (1,1,1)
    Following::Unlisted, // (1,1,2)
    Following::Nothing, // (2,0,0)
    Following::Unlisted, // (2,0,1)
    Following::Unlisted, // (2,0,2)
    Following::Unlisted, // (2,1,0)
    Following::Unlisted, // (2,1,1)
    Following::Unlisted, // (2,1,2)
];

#[tactic(auto, using(crate::proofs::Rule::type_below, crate::proofs::Rule::delivery_below, crate::proofs::Rule::ordering_below))]
pub fn headers_after(standard: StandardHeader) -> Following
    ensures { result ≡ follows standard }
{
    let at = u8::from(standard.packet_type) * 6
        + u8::from(standard.delivery) * 3
        + u8::from(standard.ordering);
    FOLLOWING[at as usize]
}

pub fn is_listed(following: Following) -> bool
    ensures { result ≡ listed following }
{
    !matches!(following, Following::Unlisted)
}

pub fn has_fragment(following: Following) -> bool
    ensures { result ≡ has_fragment following }
{
    matches!(following, Following::Fragment)
}

pub fn has_acked(following: Following, id: u8) -> bool
    ensures { result ≡ has_acked following id }
{
    match following {
        Following::Acknowledgment | Following::AcknowledgmentArranging => true,
        Following::Fragment => id == 0,
        Following::Unlisted | Following::Nothing | Following::Arranging => false,
    }
}

pub fn has_arranging(following: Following) -> bool
    ensures { result ≡ has_arranging following }
{
    matches!(
        following,
        Following::Arranging | Following::AcknowledgmentArranging
    )
}

// Where the payload starts.
#[tactic(auto, using(crate::proofs::Lengths::size_most))]
pub fn payload_at(following: Following, id: u8) -> usize
    ensures { result ≡ payload_at following id }
{
    STANDARD_HEADER_SIZE
        + size(has_fragment(following), FRAGMENT_HEADER_SIZE)
        + size(has_acked(following, id), ACKED_PACKET_HEADER)
        + size(has_arranging(following), ARRANGING_PACKET_HEADER)
}

fn size(there: bool, bytes: usize) -> usize
    ensures { result ≡ size_of there bytes }
{
    if there { bytes } else { 0 }
}

// The combination is not listed, or a heartbeat has more than its standard header: `more` bytes.
#[tactic(auto, unfolding(crate::specs::Table::misfit))]
pub fn is_misfit(standard: StandardHeader, following: Following, more: usize) -> bool
    ensures { result ≡ misfit standard following more }
{
    !is_listed(following) || (is_heartbeat(standard.packet_type) && 0 < more)
}

pub fn is_heartbeat(packet_type: PacketType) -> bool
    ensures { result ≡ is_heartbeat packet_type }
{
    matches!(packet_type, PacketType::Heartbeat)
}

// Each is its number on the wire. A number that is none is refused where it is tried, and else read as the last.
#[tactic(auto, unfolding(crate::specs::Table::type_of))]
pub fn type_of(number: u8) -> PacketType
    ensures { result ≡ type_of number }
{
    match number {
        0 => PacketType::Packet,
        1 => PacketType::Fragment,
        _ => PacketType::Heartbeat,
    }
}

#[tactic(auto, unfolding(crate::specs::Table::delivery_of))]
pub fn delivery_of(number: u8) -> DeliveryGuarantee
    ensures { result ≡ delivery_of number }
{
    match number {
        0 => DeliveryGuarantee::Unreliable,
        _ => DeliveryGuarantee::Reliable,
    }
}

#[tactic(auto, unfolding(crate::specs::Table::ordering_of))]
pub fn ordering_of(number: u8) -> OrderingGuarantee
    ensures { result ≡ ordering_of number }
{
    match number {
        0 => OrderingGuarantee::None,
        1 => OrderingGuarantee::Sequenced,
        _ => OrderingGuarantee::Ordered,
    }
}

impl From<PacketType> for u8 {
    ghost from_gives = { λ t n. n ≡ type_number t };

    fn from(packet_type: PacketType) -> u8 {
        packet_type as u8
    }
}

impl TryFrom<u8> for PacketType {
    type Error = Refusal;

    ghost try_from_gives = { λ n r. r ≡ type_read n };

    #[tactic(auto, unfolding(crate::specs::Table::type_read))]
    fn try_from(number: u8) -> Result<PacketType, Refusal> {
        match number {
            0..=2 => Ok(type_of(number)),
            _ => Err(Refusal::BadHeader),
        }
    }
}

impl From<DeliveryGuarantee> for u8 {
    ghost from_gives = { λ d n. n ≡ delivery_number d };

    fn from(delivery: DeliveryGuarantee) -> u8 {
        delivery as u8
    }
}

impl TryFrom<u8> for DeliveryGuarantee {
    type Error = Refusal;

    ghost try_from_gives = { λ n r. r ≡ delivery_read n };

    #[tactic(auto, unfolding(crate::specs::Table::delivery_read))]
    fn try_from(number: u8) -> Result<DeliveryGuarantee, Refusal> {
        match number {
            0..=1 => Ok(delivery_of(number)),
            _ => Err(Refusal::BadHeader),
        }
    }
}

impl From<OrderingGuarantee> for u8 {
    ghost from_gives = { λ o n. n ≡ ordering_number o };

    fn from(ordering: OrderingGuarantee) -> u8 {
        ordering as u8
    }
}

impl TryFrom<u8> for OrderingGuarantee {
    type Error = Refusal;

    ghost try_from_gives = { λ n r. r ≡ ordering_read n };

    #[tactic(auto, unfolding(crate::specs::Table::ordering_read))]
    fn try_from(number: u8) -> Result<OrderingGuarantee, Refusal> {
        match number {
            0..=2 => Ok(ordering_of(number)),
            _ => Err(Refusal::BadHeader),
        }
    }
}
