// An item is sent, or sent again, and the further fragments of one that is in flight.
ghost use Rattle.std.specs.Prelude.{◌≡◌, Err};
ghost use Rattle.packet_table.specs.Table.{ordering_of};
ghost use Rattle.ends.specs.State.{lending};
ghost use Rattle.sending.specs.Send.{Sends};
ghost use Rattle.link_outgoing.specs.Calls.{item_next, send_of, item_again, resend_of, fragment_of, fragment_output};

use datagrams::{Identifier, Item};
use ends::{End, gate};
use flight::SentPacket;
use packet::{DeliveryGuarantee, OrderingGuarantee};
use sending::Sent;
use serial::PacketNumber;
use terms::{Refusal, Sizes};

// The datagram goes to the start of the output: the item's only one, or its fragment 0.
pub fn send(
    sizes: Sizes,
    end: End,
    received: &[u32],
    number: &mut [u32],
    records: &mut [u32],
    payloads: &mut [u8],
    slots: &[u32],
    entry: &[u64],
    header: &[u64],
    joined: &[u8],
    index: &[u32],
    lengths: &[u16],
    held: &[u8],
    delivery: DeliveryGuarantee,
    ordering: OrderingGuarantee,
    stream: u8,
    payload: &[u8],
    output: &mut [u8],
) -> Sent
    ensures { Sends (send_of sizes (lending end received.now number.old records.old payloads.old slots.now entry.now header.now joined.now index.now lengths.now held.now) delivery ordering stream payload.now output.old)
        result received.now number.new records.new payloads.new slots.now entry.now header.now joined.now index.now lengths.now held.now output.new }
{
    let seen = match gate::look(
        sizes, end, received, number, records, payloads, slots, entry, header, joined, index,
        lengths, held, output,
    ) {
        Ok(seen) => seen,
        Err(why) => return refused(end, why),
    };
    sending::transmit(
        sizes,
        end,
        received,
        number,
        records,
        payloads,
        slots,
        entry,
        header,
        joined,
        index,
        lengths,
        held,
        item_next(delivery, ordering, stream),
        payload,
        output,
        seen.home,
        seen.lapped,
    )
}

// What `dropped` gave back is sent again: a new packet number, the same item identifier.
pub fn resend(
    sizes: Sizes,
    end: End,
    received: &[u32],
    number: &mut [u32],
    records: &mut [u32],
    payloads: &mut [u8],
    slots: &[u32],
    entry: &[u64],
    header: &[u64],
    joined: &[u8],
    index: &[u32],
    lengths: &[u16],
    held: &[u8],
    sent: SentPacket,
    payload: &[u8],
    output: &mut [u8],
) -> Sent
    ensures { Sends (resend_of sizes (lending end received.now number.old records.old payloads.old slots.now entry.now header.now joined.now index.now lengths.now held.now) sent payload.now output.old)
        result received.now number.new records.new payloads.new slots.now entry.now header.now joined.now index.now lengths.now held.now output.new }
{
    let seen = match gate::look(
        sizes, end, received, number, records, payloads, slots, entry, header, joined, index,
        lengths, held, output,
    ) {
        Ok(seen) => seen,
        Err(why) => return refused(end, why),
    };
    let ordering = match OrderingGuarantee::try_from(sent.ordering) {
        Ok(ordering) => ordering,
        Err(why) => return refused(end, why),
    };
    sending::transmit(
        sizes,
        end,
        received,
        number,
        records,
        payloads,
        slots,
        entry,
        header,
        joined,
        index,
        lengths,
        held,
        item_again(sent, ordering),
        payload,
        output,
        seen.home,
        seen.lapped,
    )
}

fn item_next(delivery: DeliveryGuarantee, ordering: OrderingGuarantee, stream: u8) -> Item
    ensures { result ≡ item_next delivery ordering stream }
{
    Item {
        delivery,
        ordering,
        stream,
        identifier: Identifier::Next,
    }
}

fn item_again(sent: SentPacket, ordering: OrderingGuarantee) -> Item
    requires { ordering ≡ ordering_of sent.ordering }
    ensures { result ≡ item_again sent }
{
    let item = sent.item;
    Item {
        delivery: DeliveryGuarantee::Reliable,
        ordering,
        stream: sent.stream,
        identifier: Identifier::Again(item),
    }
}

fn refused(end: End, why: Refusal) -> Sent
    ensures { result ≡ record { end = end; answer = Err why } }
{
    Sent {
        end,
        answer: Err(why),
    }
}

// Fragment j of a packet in flight whose payload is over F.
pub fn fragment(
    sizes: Sizes,
    end: End,
    received: &[u32],
    number: &[u32],
    records: &[u32],
    payloads: &[u8],
    slots: &[u32],
    entry: &[u64],
    header: &[u64],
    joined: &[u8],
    index: &[u32],
    lengths: &[u16],
    held: &[u8],
    packet: PacketNumber,
    j: usize,
    output: &mut [u8],
) -> Result<Option<usize>, Refusal>
    ensures value { result ≡ fragment_of sizes (lending end received.now number.now records.now payloads.now slots.now entry.now header.now joined.now index.now lengths.now held.now) packet.0 j output.old }
    ensures output_after { output.new ≡ fragment_output sizes (lending end received.now number.now records.now payloads.now slots.now entry.now header.now joined.now index.now lengths.now held.now) packet.0 j output.old }
{
    let seen = gate::look(
        sizes, end, received, number, records, payloads, slots, entry, header, joined, index,
        lengths, held, output,
    )?;
    datagrams::further::fragment(
        sizes,
        end,
        received,
        number,
        records,
        payloads,
        slots,
        entry,
        header,
        joined,
        index,
        lengths,
        held,
        packet,
        j,
        output,
        seen.home,
        seen.lapped,
    )
}
