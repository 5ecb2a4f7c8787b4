// An item is sent, or sent again: what that makes of one end, once 1, 2 and 13 are answered. Read `transmit` first. Everything is
// judged (plan.rt) before anything is written (effects.rt). It leaves out what the datagrams of an item are, which is
// `datagrams`, when to send again, and the users' calls with their gate, which are `link`.
#![tactic(auto)]

ghost use Rattle.std.specs.Prelude.{◌≡◌, Ok};
ghost use Rattle.received.specs.Record.{KnownLapped};
ghost use Rattle.flight_home.specs.AtHome.{KnownHome};
ghost use Rattle.acks.specs.State.{table_of};
ghost use Rattle.ends.specs.State.{lending};
ghost use Rattle.ends.specs.Gate.{gate_of};
ghost use Rattle.sending.specs.Send.{transmitted_of, Sends};

use datagrams::Item;
use ends::End;
use serial::PacketNumber;
use terms::{Refusal, Sizes};

pub mod effects;
pub mod plan;

// The datagram at the start of the output. The packet has the number where it is reliable; it is so many datagrams: one, or
// its fragments, of which this is the first.
#[derive(Clone, Copy)]
pub struct Written {
    pub number: PacketNumber,
    pub datagrams: usize,
    pub length: usize,
}

#[derive(Clone, Copy)]
pub struct Sent {
    pub end: End,
    pub answer: Result<Written, Refusal>,
}

// An item is sent. For the crates above: requires an end that the gate lets through, and what is said of it: packets in
// flight at home, a record in laps.
pub fn transmit(
    sizes: Sizes,
    end: End,
    received: &[u32],
    number: &mut [u32],
    records: &mut [u32],
    payloads: &mut [u8],
    slots: &[u32],
    entry: &[u64],
    header: &[u64],
    joined: &[u8],
    index: &[u32],
    lengths: &[u16],
    held: &[u8],
    item: Item,
    payload: &[u8],
    output: &mut [u8],
    home: bool,
    lapped: bool,
) -> Sent
    requires { (gate_of sizes (lending end received.now number.old records.old payloads.old slots.now entry.now header.now joined.now index.now lengths.now held.now) output.old ≡ Ok tt) × KnownHome home (table_of sizes number.old) × KnownLapped lapped received.now }
    ensures { Sends (transmitted_of sizes (lending end received.now number.old records.old payloads.old slots.now entry.now header.now joined.now index.now lengths.now held.now) item payload.now output.old)
        result received.now number.new records.new payloads.new slots.now entry.now header.now joined.now index.now lengths.now held.now output.new }
{
    let n = sizes.packets_in_flight;
    let plan = plan::judge(
        sizes,
        end.acks,
        end.ordering,
        end.sequencing,
        &number[..n],
        item,
        payload.len(),
        home,
    );
    match plan {
        Err(why) => Sent {
            end,
            answer: Err(why),
        },
        Ok(sending) => effects::perform(
            sizes, end, received, number, records, payloads, item, sending, payload, output, lapped,
        ),
    }
}
