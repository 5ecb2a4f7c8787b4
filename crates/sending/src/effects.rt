// What sending an item does, once nothing is refused: each part of the end is changed by one call.
ghost use Rattle.std.specs.Prelude.{◌≡◌, ◌+◌, ◌*◌, ◌≤◌, ◌<◌, length};
ghost use Rattle.received.specs.Record.{KnownLapped};
ghost use Rattle.sending.specs.Send.{identified_of, sequenced_as, ordered_as, kept_by, Keeping, record_of, SendReady, Performs};

use crate::plan::Sending;
use crate::{Sent, Written};
use acks::Acknowledgment;
use arranging::ordered::OrderingStreams;
use arranging::sequenced::SequencingStreams;
use datagrams::{Identifier, Item};
use ends::End;
use flight::SentPacket;
use packet::{DeliveryGuarantee, OrderingGuarantee};
use serial::ItemId;
use terms::Sizes;

// The identifier of an item, and the streams once it has it.
#[derive(Clone, Copy)]
pub struct Identified {
    pub item: ItemId,
    pub ordering: OrderingStreams,
    pub sequencing: SequencingStreams,
}

// Requires an end that the gate lets through, what is said of its record, and a plan that refuses nothing.
pub fn perform(
    sizes: Sizes,
    end: End,
    received: &[u32],
    number: &mut [u32],
    records: &mut [u32],
    payloads: &mut [u8],
    item: Item,
    sending: Sending,
    payload: &[u8],
    output: &mut [u8],
    lapped: bool,
) -> Sent
    requires { SendReady sizes end received.now number.old records.old payloads.old item sending payload.now output.old × KnownLapped lapped received.now }
    ensures { Performs sizes end received.now number.old records.old payloads.old item sending payload.now output.old result number.new records.new payloads.new output.new }
{
    let f = sizes.fragment_size;
    let at = sending.at;
    let acks = end.acks;
    let packet = acks.sequence_number;
    let reassembly = end.reassembly;
    let identified = identify(item, sending.stream, end.ordering, end.sequencing);
    let id = identified.item;
    let ordering = identified.ordering;
    let sequencing = identified.sequencing;
    let length = datagrams::first(
        sizes.version,
        f,
        item,
        id,
        acks,
        received,
        payload,
        output,
        lapped,
    );
    let datagrams = datagrams::count(f, payload.len());
    let acks = keep(item, id, acks, f, at, number, records, payloads, payload);
    Sent {
        end: End {
            acks,
            reassembly,
            ordering,
            sequencing,
        },
        answer: Ok(Written {
            number: packet,
            datagrams,
            length,
        }),
    }
}

// An item of a stream takes its next identifier, or keeps the one that it had. Requires a place of the 4.
fn identify(
    item: Item,
    j: usize,
    ordering: OrderingStreams,
    sequencing: SequencingStreams,
) -> Identified
    requires { (j < 4) × (ordering.known.made ≤ 4) × (sequencing.known.made ≤ 4) }
    ensures { result ≡ identified_of item j ordering sequencing }
{
    let arranged = item.ordering;
    let identifier = item.identifier;
    match arranged {
        OrderingGuarantee::None => Identified {
            item: ItemId(0),
            ordering,
            sequencing,
        },
        OrderingGuarantee::Sequenced => {
            let new = on_sequenced(identifier, sequencing, j, item.stream);
            let id = new.item;
            let streams = new.streams;
            Identified {
                item: id,
                ordering,
                sequencing: streams,
            }
        }
        OrderingGuarantee::Ordered => {
            let new = on_ordered(identifier, ordering, j, item.stream);
            let id = new.item;
            let streams = new.streams;
            Identified {
                item: id,
                ordering: streams,
                sequencing,
            }
        }
    }
}

fn on_sequenced(
    identifier: Identifier,
    streams: SequencingStreams,
    j: usize,
    stream: u8,
) -> arranging::sequenced::NewItem
    requires { (j < 4) × (streams.known.made ≤ 4) }
    ensures { result ≡ sequenced_as identifier streams j stream }
{
    match identifier {
        Identifier::Next => arranging::sequenced::number_item(streams, j, stream),
        Identifier::Again(item) => {
            let kept = streams.at(j);
            arranging::sequenced::NewItem {
                item,
                streams: streams.with(j, stream, kept),
            }
        }
    }
}

fn on_ordered(
    identifier: Identifier,
    streams: OrderingStreams,
    j: usize,
    stream: u8,
) -> arranging::ordered::NewItem
    requires { (j < 4) × (streams.known.made ≤ 4) }
    ensures { result ≡ ordered_as identifier streams j stream }
{
    match identifier {
        Identifier::Next => arranging::ordered::number_item(streams, j, stream),
        Identifier::Again(item) => {
            let kept = streams.at(j);
            arranging::ordered::NewItem {
                item,
                streams: streams.with(j, stream, kept),
            }
        }
    }
}

// A reliable packet is in flight under the local number, and the next one has the next.
fn keep(
    item: Item,
    id: ItemId,
    acks: Acknowledgment,
    f: usize,
    at: usize,
    number: &mut [u32],
    records: &mut [u32],
    payloads: &mut [u8],
    payload: &[u8],
) -> Acknowledgment
    requires { (f ≤ 1024) × (at < length number.old) × (at < length records.old) × (at * (16 * f) + 16 * f ≤ length payloads.old) × (length payload.now ≤ 16 * f) × (length payload.now < 65536) }
    ensures { Keeping (kept_by item.delivery acks f at number.old records.old payloads.old (record_of item id) payload.now) result number.new records.new payloads.new }
{
    let delivery = item.delivery;
    let next = acks::steps::sent(acks);
    match delivery {
        DeliveryGuarantee::Unreliable => acks,
        DeliveryGuarantee::Reliable => {
            let packet = acks.sequence_number;
            let sent = record(item, id);
            flight::store(number, records, payloads, 16 * f, at, packet, sent, payload);
            next
        }
    }
}

// What is kept of a packet beside its payload, and given back where it is dropped.
fn record(item: Item, id: ItemId) -> SentPacket
    ensures { result ≡ record_of item id }
{
    SentPacket {
        ordering: u8::from(item.ordering),
        stream: item.stream,
        item: id,
    }
}
