// A datagram has come: what it makes of one end, once 1, 2 and 13 are answered. Read `receive` first. It leaves out a packet
// and a fragment, which are `receiving_packets` and `receiving_fragments` and judge everything before they write anything;
// taking items of an ordered stream, which is `arranging`; and the users' call with its gate, which is `link`.
#![tactic(auto)]

ghost use Rattle.std.specs.Prelude.{◌≡◌, Ok};
ghost use Rattle.flight_home.specs.AtHome.{KnownHome};
ghost use Rattle.acks.specs.State.{table_of};
ghost use Rattle.ends.specs.State.{lending};
ghost use Rattle.ends.specs.Gate.{gate_of};
ghost use Rattle.receiving_plan.specs.declared.Answer.TheVariants.{Heartbeat};
ghost use Rattle.receiving.specs.Receive.{with_part, received_of, Receives};

use ends::End;
use packet::{Found, PacketType};
use receiving_fragments::Joined;
pub use receiving_packets::{Received, refused};
pub use receiving_plan::{Answer, Item};
use terms::{Refusal, Sizes};

// A datagram has come. For the crates above: requires an end that the gate lets through, with packets in
// flight at home where they are said to be.
pub fn receive(
    sizes: Sizes,
    end: End,
    received: &mut [u32],
    number: &mut [u32],
    records: &[u32],
    payloads: &[u8],
    slots: &mut [u32],
    entry: &mut [u64],
    header: &mut [u64],
    joined: &mut [u8],
    index: &mut [u32],
    lengths: &mut [u16],
    held: &mut [u8],
    datagram: &[u8],
    output: &mut [u8],
    home: bool,
) -> Received
    requires { (gate_of sizes (lending end received.old number.old records.now payloads.now slots.old entry.old header.old joined.old index.old lengths.old held.old) output.old ≡ Ok tt) × KnownHome home (table_of sizes number.old) }
    ensures { Receives (received_of sizes (lending end received.old number.old records.now payloads.now slots.old entry.old header.old joined.old index.old lengths.old held.old) datagram.now output.old)
        result received.new number.new records.now payloads.now slots.new entry.new header.new joined.new index.new lengths.new held.new output.new }
{
    // Document 01 takes what was read apart by `let .. else`; where nothing was found there is a refusal.
    let read = packet::read_headers(sizes.version, datagram);
    let Ok(Found { headers, at }) = read else {
        return refused(end, read.err().unwrap_or(Refusal::BadHeader));
    };
    if sizes.fragment_size < datagram.len() - at {
        return refused(end, Refusal::TooLong);
    }
    let payload = &datagram[at..];
    let standard = headers.standard;
    let packet_type = standard.packet_type;
    match packet_type {
        PacketType::Packet => receiving_packets::accept(
            sizes, end, received, number, index, lengths, held, headers, payload, output, home,
        ),
        PacketType::Fragment => {
            let part = receiving_fragments::join(
                sizes,
                end.acks,
                end.reassembly,
                received,
                number,
                slots,
                entry,
                header,
                joined,
                headers,
                payload,
                output,
                home,
            );
            with_part(end, part)
        }
        PacketType::Heartbeat => heartbeat(end),
    }
}

// The end with what a fragment has changed of it.
fn with_part(end: End, part: Joined) -> Received
    ensures { result ≡ with_part end part }
{
    Received {
        end: End {
            acks: part.acks,
            reassembly: part.reassembly,
            ..end
        },
        answer: part.answer,
    }
}

fn heartbeat(end: End) -> Received
    ensures { result ≡ record { end = end; answer = (Ok Heartbeat) } }
{
    Received {
        end,
        answer: Ok(Answer::Heartbeat),
    }
}
