// One ordered stream: what comes early is held until its turn. `arrange` is given an item that has come, `take` hands out the
// next one that is held; after each arrival a user takes until nothing comes. It leaves out who sends: that is the link; and
// what is judged before anything is written: that is `ordering_plan`, with the stream's type.
// The counters go by value, the tables and the bytes of 64 held items are lent.
#![tactic(auto)]

ghost use Rattle.ordering_plan.specs.State.{lending};
ghost use Rattle.ordering.specs.Calls.{Arranges, Takes};

use ordering_plan::{gate, plan};
use serial::ItemId;
use terms::{Refusal, Sizes};

pub mod doing;
pub mod taking;

pub use ordering_plan::{Arranged, NewItem, OrderingStream};

#[derive(Clone, Copy)]
pub struct AfterArrange {
    pub answer: Result<Arranged, Refusal>,
    pub stream: OrderingStream,
}

#[derive(Clone, Copy)]
pub struct AfterTake {
    pub answer: Result<Option<usize>, Refusal>,
    pub stream: OrderingStream,
}

// An item has come: it goes out, is held, is old or is refused.
pub fn arrange(
    sizes: Sizes,
    stream: OrderingStream,
    index: &mut [u32],
    lengths: &mut [u16],
    bytes: &mut [u8],
    item: ItemId,
    payload: &[u8],
    output: &mut [u8],
) -> AfterArrange
    ensures { Arranges sizes (lending stream index.old lengths.old bytes.old) item.0 payload.now output.old result index.new lengths.new bytes.new output.new }
{
    if let Err(why) = gate::check(sizes, stream, index, lengths, bytes, output) {
        return AfterArrange {
            answer: Err(why),
            stream,
        };
    }
    let f = sizes.fragment_size;
    if f < payload.len() {
        return AfterArrange {
            answer: Err(Refusal::TooLong),
            stream,
        };
    }
    let answer = plan::judge(stream, index, item);
    doing::hand_out(answer, payload, output);
    AfterArrange {
        answer,
        stream: doing::perform(stream, f, index, lengths, bytes, answer, item, payload),
    }
}

// The item that is expected is handed out, if it is held.
pub fn take(
    sizes: Sizes,
    stream: OrderingStream,
    index: &mut [u32],
    lengths: &mut [u16],
    bytes: &mut [u8],
    output: &mut [u8],
) -> AfterTake
    ensures { Takes sizes (lending stream index.old lengths.old bytes.old) output.old result index.new lengths.new bytes.new output.new }
{
    if let Err(why) = gate::check(sizes, stream, index, lengths, bytes, output) {
        return AfterTake {
            answer: Err(why),
            stream,
        };
    }
    taking::take_next(stream, sizes.fragment_size, index, lengths, bytes, output)
}
