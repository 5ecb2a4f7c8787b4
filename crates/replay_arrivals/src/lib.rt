// Tags 71, 77 and 78: datagrams come to an end. Each hands out what it does, and of an ordered stream what a take then gives,
// until none. Only the program `replay` uses this crate.
#![tactic(auto)]

use packet::{DeliveryGuarantee, OrderingGuarantee};
use receiving::{Answer, Item};
use replay_calls::Connection;
use script::{Hex, Refused, Stop};

// The most items that an end can hold.
const MOST_HELD: usize = 64;

// So many ordered packets in a row, whose numbers and indices count on.
#[derive(Clone, Copy)]
pub struct Packets {
    pub count: u16,
    pub number: u16,
    pub acked: u16,
    pub field: u32,
    pub index: u16,
    pub stream: u8,
}

// Tags 71 and 78: one datagram, whose items are told.
pub fn receive(connection: &mut Connection, datagram: &[u8], out: &impl Print) -> Result<(), Stop> {
    match connection.receive(datagram) {
        Ok(Answer::Out(first)) => tell_all(connection, first, out)?,
        Ok(_) => print!(out; " -")?,
        Err(why) => {
            let refused = Refused(why);
            print!(out; " {refused}")?;
        }
    }
    Ok(())
}

fn tell_all(connection: &mut Connection, first: Item, out: &impl Print) -> Result<(), Stop> {
    tell(first, &connection.output, out)?;
    for _ in 0..MOST_HELD {
        let Some(item) = further(connection, first) else {
            break;
        };
        tell(item, &connection.output, out)?;
    }
    Ok(())
}

// What an ordered stream lets out behind its first item.
fn further(connection: &mut Connection, first: Item) -> Option<Item> {
    let OrderingGuarantee::Ordered = first.ordering else {
        return None;
    };
    let Ok(Some(length)) = connection.take(first.stream) else {
        return None;
    };
    Some(Item { length, ..first })
}

fn tell(item: Item, output: &[u8], out: &impl Print) -> Result<(), Stop> {
    let delivery = match item.delivery {
        DeliveryGuarantee::Unreliable => "unreliable",
        DeliveryGuarantee::Reliable => "reliable",
    };
    let stream = item.stream;
    let payload = Hex(script::front(output, item.length));
    match item.ordering {
        OrderingGuarantee::None => print!(out; " {delivery},none,-,{payload}")?,
        OrderingGuarantee::Sequenced => print!(out; " {delivery},sequenced,{stream},{payload}")?,
        OrderingGuarantee::Ordered => print!(out; " {delivery},ordered,{stream},{payload}")?,
    }
    Ok(())
}

// Tag 77: of these the items are counted.
pub fn feed(connection: &mut Connection, packets: Packets, out: &impl Print) -> Result<(), Stop> {
    let count = packets.count;
    let mut items = 0u64;
    for i in 0..count {
        items = items.saturating_add(come_out(connection, &packets.datagram(i)));
    }
    print!(out; " {count} out {items}")?;
    Ok(())
}

// How many items a datagram lets out.
fn come_out(connection: &mut Connection, datagram: &[u8]) -> u64 {
    let Ok(Answer::Out(first)) = connection.receive(datagram) else {
        return 0;
    };
    let mut items = 1u64;
    for _ in 0..MOST_HELD {
        if further(connection, first).is_none() {
            break;
        }
        items = items.saturating_add(1);
    }
    items
}

impl Packets {
    // The (0,1,2) datagram at a place, with its index as payload.
    fn datagram(self, i: u16) -> [u8; 18] {
        let [number_high, number_low] = self.number.wrapping_add(i).to_be_bytes();
        let [acked_high, acked_low] = self.acked.to_be_bytes();
        let [a, b, c, d] = self.field.to_be_bytes();
        let [high, low] = self.index.wrapping_add(i).to_be_bytes();
        [
            0x54,
            0x09,
            0,
            1,
            2,
            number_high,
            number_low,
            acked_high,
            acked_low,
            a,
            b,
            c,
            d,
            high,
            low,
            self.stream,
            high,
            low,
        ]
    }
}
