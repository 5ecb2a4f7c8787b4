// A fresh end.
ghost use Rattle.std.specs.Prelude.{◌≡◌, Err};
ghost use Rattle.ends.specs.State.{fresh_end};
ghost use Rattle.link.specs.Calls.{new_of, filled};

use ends::{End, gate};
use terms::{Refusal, Sizes};

#[derive(Clone, Copy)]
pub struct Begun {
    pub end: End,
    pub answer: Result<(), Refusal>,
}

// What is lent is made the storage of a fresh end: nothing received, in flight or put together, and no streams. 1 and 2 alone can
// refuse it, and then nothing is written.
pub fn new(
    sizes: Sizes,
    received: &mut [u32],
    number: &mut [u32],
    records: &[u32],
    payloads: &[u8],
    slots: &mut [u32],
    entry: &[u64],
    header: &[u64],
    joined: &[u8],
    index: &[u32],
    lengths: &[u16],
    held: &[u8],
    output: &[u8],
) -> Begun
    ensures end_value { result.end ≡ fresh_end }
    ensures answer_value { result.answer ≡ new_of sizes received.old number.old records.now payloads.now slots.old entry.now header.now joined.now index.now lengths.now held.now output.now }
    ensures received_after { received.new ≡ filled (new_of sizes received.old number.old records.now payloads.now slots.old entry.now header.now joined.now index.now lengths.now held.now output.now) received.old }
    ensures number_after { number.new ≡ filled (new_of sizes received.old number.old records.now payloads.now slots.old entry.now header.now joined.now index.now lengths.now held.now output.now) number.old }
    ensures slots_after { slots.new ≡ filled (new_of sizes received.old number.old records.now payloads.now slots.old entry.now header.now joined.now index.now lengths.now held.now output.now) slots.old }
{
    if !sizes.in_range() {
        return refused(Refusal::BadSizes);
    }
    if !gate::is_lent(
        sizes, received, number, records, payloads, slots, entry, header, joined, index, lengths,
        held, output,
    ) {
        return refused(Refusal::BadStorage);
    }
    Begun {
        end: ends::new(received, number, slots),
        answer: Ok(()),
    }
}

fn refused(why: Refusal) -> Begun
    ensures { result ≡ record { end = fresh_end; answer = Err why } }
{
    Begun {
        end: ends::fresh(),
        answer: Err(why),
    }
}
