// Tags 72, 75 and 76: an end sends. Every datagram but those of 76 is told and goes into the end's log. Only the
// program `replay` uses this crate.
#![tactic(auto)]

pub mod log;
pub mod losses;

use log::Log;
use packet::{
    AckedPacketHeader, ArrangingHeader, DeliveryGuarantee, FragmentHeader, Headers,
    OrderingGuarantee, PacketType, StandardHeader,
};
use replay_calls::Connection;
use script::{Hex, Refused, Stop};
use sending::Written;
use serial::{ItemId, PacketNumber};
use terms::Refusal;

// laminar's own version word.
pub const VERSION: u16 = 21513;

// An item that goes.
#[derive(Clone, Copy)]
pub struct Outgoing<'a> {
    pub delivery: DeliveryGuarantee,
    pub ordering: OrderingGuarantee,
    pub stream: u8,
    pub payload: &'a [u8],
}

// So many empty items in a row, each acknowledged before the next by a packet of this number.
#[derive(Clone, Copy)]
pub struct Items {
    pub count: u16,
    pub ordering: OrderingGuarantee,
    pub stream: u8,
    pub number: u16,
}

// Tag 72: an item goes, as one datagram or as its fragments.
pub fn send(
    connection: &mut Connection,
    log: &mut Log,
    item: Outgoing<'_>,
    out: &impl Print,
) -> Result<(), Stop> {
    let answer = connection.send(item.delivery, item.ordering, item.stream, item.payload);
    written(connection, log, answer, out)
}

// What a send has written, and its further fragments; or its refusal.
pub fn written(
    connection: &mut Connection,
    log: &mut Log,
    answer: Result<Written, Refusal>,
    out: &impl Print,
) -> Result<(), Stop> {
    match answer {
        Ok(first) => {
            keep(script::front(&connection.output, first.length), log, out)?;
            for j in 1..first.datagrams {
                fragment(connection, log, first.number, j, out)?;
            }
        }
        Err(why) => {
            let refused = Refused(why);
            print!(out; " {refused}")?;
        }
    }
    Ok(())
}

fn fragment(
    connection: &mut Connection,
    log: &mut Log,
    number: PacketNumber,
    j: usize,
    out: &impl Print,
) -> Result<(), Stop> {
    match connection.fragment(number, j) {
        Ok(Some(length)) => keep(script::front(&connection.output, length), log, out),
        Ok(None) | Err(_) => Ok(()),
    }
}

// Tells a datagram, and puts it into the log.
fn keep(datagram: &[u8], log: &mut Log, out: &impl Print) -> Result<(), Stop> {
    let bytes = Hex(datagram);
    print!(out; " {bytes}")?;
    log.push(datagram);
    Ok(())
}

// Tag 75.
pub fn heartbeat(log: &mut Log, out: &impl Print) -> Result<(), Stop> {
    let mut output = [0; 5];
    match packet::build(VERSION, heartbeat_headers(), b"", &mut output) {
        Ok(length) => keep(script::front(&output, length), log, out),
        Err(_) => Ok(()),
    }
}

fn heartbeat_headers() -> Headers {
    Headers {
        standard: StandardHeader {
            packet_type: PacketType::Heartbeat,
            delivery: DeliveryGuarantee::Unreliable,
            ordering: OrderingGuarantee::None,
        },
        fragment: FragmentHeader {
            number: PacketNumber(0),
            id: 0,
            count: 0,
        },
        acked: AckedPacketHeader {
            number: PacketNumber(0),
            acked: PacketNumber(0),
            field: 0,
        },
        arranging: ArrangingHeader {
            index: ItemId(0),
            stream: 0,
        },
    }
}

// Tag 76. The last datagram is told.
pub fn cycle(connection: &mut Connection, items: Items, out: &impl Print) -> Result<(), Stop> {
    let count = items.count;
    print!(out; " {count}")?;
    if count == 0 {
        print!(out; " -")?;
    }
    for left in (0..count).rev() {
        let number = connection.end.acks.sequence_number;
        let sent = connection.send(
            DeliveryGuarantee::Reliable,
            items.ordering,
            items.stream,
            b"",
        );
        match sent {
            Ok(written) if left == 0 => {
                let bytes = Hex(script::front(&connection.output, written.length));
                print!(out; " {bytes}")?;
            }
            Ok(_) => {}
            Err(why) => {
                let refused = Refused(why);
                print!(out; " {refused}")?;
            }
        }
        let _ = connection.receive(&acknowledging(items.number, number));
    }
    Ok(())
}

// A (0,1,0) datagram without payload.
fn acknowledging(number: u16, acked: PacketNumber) -> [u8; 13] {
    let [high, low] = number.to_be_bytes();
    let [acked_high, acked_low] = acked.0.to_be_bytes();
    [
        0x54, 0x09, 0, 1, 0, high, low, acked_high, acked_low, 0, 0, 0, 0,
    ]
}
