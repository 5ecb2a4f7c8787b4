// A datagram has come.
ghost use Rattle.ends.specs.State.{lending};
ghost use Rattle.receiving.specs.Receive.{Receives};
ghost use Rattle.link_incoming.specs.Calls.{receive_of};

use ends::{End, gate};
use receiving::Received;
use terms::Sizes;

pub fn receive(
    sizes: Sizes,
    end: End,
    received: &mut [u32],
    number: &mut [u32],
    records: &[u32],
    payloads: &[u8],
    slots: &mut [u32],
    entry: &mut [u64],
    header: &mut [u64],
    joined: &mut [u8],
    index: &mut [u32],
    lengths: &mut [u16],
    held: &mut [u8],
    datagram: &[u8],
    output: &mut [u8],
) -> Received
    ensures { Receives (receive_of sizes (lending end received.old number.old records.now payloads.now slots.old entry.old header.old joined.old index.old lengths.old held.old) datagram.now output.old)
        result received.new number.new records.now payloads.now slots.new entry.new header.new joined.new index.new lengths.new held.new output.new }
{
    let seen = match gate::look(
        sizes, end, received, number, records, payloads, slots, entry, header, joined, index,
        lengths, held, output,
    ) {
        Ok(seen) => seen,
        Err(why) => return receiving::refused(end, why),
    };
    receiving::receive(
        sizes, end, received, number, records, payloads, slots, entry, header, joined, index,
        lengths, held, datagram, output, seen.home,
    )
}
