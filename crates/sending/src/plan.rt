// What is to become of an item that is sent: nothing is written before that is known.
ghost use Rattle.std.specs.Prelude.{◌≡◌, true, ◌≤◌, length};
ghost use Rattle.terms.specs.Sizes.{in_range};
ghost use Rattle.keys.specs.Keys.{found};
ghost use Rattle.flight_home.specs.AtHome.{KnownHome};
ghost use Rattle.sending.specs.Plan.{is_listed, is_split, is_long, stream_place, flight_place, plan_of};

use acks::Acknowledgment;
use arranging::ordered::OrderingStreams;
use arranging::sequenced::SequencingStreams;
use datagrams::Item;
use packet::{DeliveryGuarantee, OrderingGuarantee, PacketType, StandardHeader, table};
use serial::PacketNumber;
use terms::{Refusal, Sizes};

// The place in flight of a reliable item, and that of its stream where it has one.
#[derive(Clone, Copy)]
pub struct Sending {
    pub at: usize,
    pub stream: usize,
}

// 4, 5, 8, 7, 6. Requires sizes in range, N places in flight, at home where they are said to be, and sound streams.
pub fn judge(
    sizes: Sizes,
    acks: Acknowledgment,
    ordered: OrderingStreams,
    sequenced: SequencingStreams,
    number: &[u32],
    item: Item,
    size: usize,
    home: bool,
) -> Result<Sending, Refusal>
    requires { (in_range sizes ≡ true) × (length number.now ≡ sizes.packets_in_flight) × (ordered.known.made ≤ 4) × (sequenced.known.made ≤ 4) × KnownHome home number.now }
    ensures { result ≡ plan_of sizes acks.sequence_number.0 ordered sequenced number.now item size }
{
    if !is_listed(item) {
        return Err(Refusal::BadHeader);
    }
    let f = sizes.fragment_size;
    if is_long(f, item, size) {
        return Err(Refusal::TooLong);
    }
    if sizes.max_fragments < datagrams::count(f, size) {
        return Err(Refusal::ExceededMaxFragments);
    }
    let stream = stream_place(item, ordered, sequenced);
    if stream == 4 {
        return Err(Refusal::NoStream);
    }
    let delivery = item.delivery;
    let Some(at) = flight_place(delivery, number, acks.sequence_number, home) else {
        return Err(Refusal::Full);
    };
    Ok(Sending { at, stream })
}

// Not 4: the combination is listed for a packet.
fn is_listed(item: Item) -> bool
    ensures { result ≡ is_listed item }
{
    let delivery = item.delivery;
    let ordering = item.ordering;
    let standard = StandardHeader {
        packet_type: PacketType::Packet,
        delivery,
        ordering,
    };
    table::is_listed(table::headers_after(standard))
}

// 5: over 65,535 bytes, or over F and not both reliable and unordered.
fn is_long(f: usize, item: Item, size: usize) -> bool
    ensures { result ≡ is_long f item size }
{
    if 65535 < size {
        return true;
    }
    if size <= f {
        return false;
    }
    !is_split(item.delivery, item.ordering)
}

// Only a reliable and unordered item goes as fragments.
fn is_split(delivery: DeliveryGuarantee, ordering: OrderingGuarantee) -> bool
    ensures { result ≡ is_split delivery ordering }
{
    delivery == DeliveryGuarantee::Reliable && ordering == OrderingGuarantee::None
}

// The place of an item's stream, 4 where it would be a fifth: a number and no Option, since a new stream is made there.
fn stream_place(item: Item, ordered: OrderingStreams, sequenced: SequencingStreams) -> usize
    requires { (ordered.known.made ≤ 4) × (sequenced.known.made ≤ 4) }
    ensures { result ≡ stream_place item ordered sequenced }
{
    match item.ordering {
        OrderingGuarantee::None => 0,
        OrderingGuarantee::Sequenced => sequenced.known.place(item.stream),
        OrderingGuarantee::Ordered => ordered.known.place(item.stream),
    }
}

// Where a reliable packet goes in flight, if there is room.
fn flight_place(
    delivery: DeliveryGuarantee,
    number: &[u32],
    packet: PacketNumber,
    home: bool,
) -> Option<usize>
    requires { (1 ≤ length number.now) × KnownHome home number.now }
    ensures { result ≡ found (flight_place delivery packet.0 number.now) (length number.now) }
{
    match delivery {
        DeliveryGuarantee::Unreliable => Some(0),
        DeliveryGuarantee::Reliable => flight_home::direct::place(number, packet, home),
    }
}
