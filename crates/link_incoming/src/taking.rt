// The item that is expected on an ordered stream is handed out, if it is held. After an item has come, its user takes until none.
ghost use Rattle.std.specs.Prelude.{◌≡◌};
ghost use Rattle.ends.specs.State.{lending};
ghost use Rattle.link_incoming.specs.Calls.{take_of, Takes};

use arranging::ordered;
use arranging::ordered::AfterTake;
use ends::{End, gate};
use terms::{Refusal, Sizes};

#[derive(Clone, Copy)]
pub struct Took {
    pub end: End,
    pub answer: Result<Option<usize>, Refusal>,
}

pub fn take(
    sizes: Sizes,
    end: End,
    received: &[u32],
    number: &[u32],
    records: &[u32],
    payloads: &[u8],
    slots: &[u32],
    entry: &[u64],
    header: &[u64],
    joined: &[u8],
    index: &mut [u32],
    lengths: &mut [u16],
    held: &mut [u8],
    stream: u8,
    output: &mut [u8],
) -> Took
    ensures { Takes (take_of sizes (lending end received.now number.now records.now payloads.now slots.now entry.now header.now joined.now index.old lengths.old held.old) stream output.old)
        result received.now number.now records.now payloads.now slots.now entry.now header.now joined.now index.new lengths.new held.new output.new }
{
    if let Err(why) = gate::check(
        sizes, end, received, number, records, payloads, slots, entry, header, joined, index,
        lengths, held, output,
    ) {
        return Took {
            end,
            answer: Err(why),
        };
    }
    let after = ordered::take_next(
        end.ordering,
        sizes.fragment_size,
        index,
        lengths,
        held,
        stream,
        output,
    );
    left_by(end, after)
}

// Only the ordered streams have changed.
fn left_by(end: End, after: AfterTake) -> Took
    ensures { result ≡ record { end = record { acks = end.acks; reassembly = end.reassembly; ordering = after.streams; sequencing = end.sequencing }; answer = after.answer } }
{
    Took {
        end: End {
            ordering: after.streams,
            ..end
        },
        answer: after.answer,
    }
}
