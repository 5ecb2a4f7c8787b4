// A packet is given up: one a call, the least number first, until none.
ghost use Rattle.std.specs.Prelude.{◌≡◌};
ghost use Rattle.ends.specs.State.{lending};
ghost use Rattle.link.specs.Calls.{drop_of, drop_number, drop_output};

use ends::{End, gate};
use flight::lost::Dropped;
use terms::{Refusal, Sizes};

// Its record comes back, and its payload at the start of the output.
pub fn dropped(
    sizes: Sizes,
    end: End,
    received: &[u32],
    number: &mut [u32],
    records: &[u32],
    payloads: &[u8],
    slots: &[u32],
    entry: &[u64],
    header: &[u64],
    joined: &[u8],
    index: &[u32],
    lengths: &[u16],
    held: &[u8],
    output: &mut [u8],
) -> Result<Option<Dropped>, Refusal>
    ensures value { result ≡ drop_of sizes (lending end received.now number.old records.now payloads.now slots.now entry.now header.now joined.now index.now lengths.now held.now) output.old }
    ensures number_after { number.new ≡ drop_number sizes (lending end received.now number.old records.now payloads.now slots.now entry.now header.now joined.now index.now lengths.now held.now) output.old }
    ensures output_after { output.new ≡ drop_output sizes (lending end received.now number.old records.now payloads.now slots.now entry.now header.now joined.now index.now lengths.now held.now) output.old }
{
    gate::check(
        sizes, end, received, number, records, payloads, slots, entry, header, joined, index,
        lengths, held, output,
    )?;
    let n = sizes.packets_in_flight;
    let remote = end.acks.remote_ack_sequence_num;
    let room = 16 * sizes.fragment_size;
    Ok(flight::lost::drop_one(&mut number[..n], records, payloads, room, remote, output))
}
