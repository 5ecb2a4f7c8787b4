// The calls of a user of the streams of a kind, by the stream's id. Each tries 1, 2, 13 first, then the rest in document 01's
// order, and a refused one leaves everything as it was.
ghost use Rattle.std.specs.Prelude.{◌≡◌};
ghost use Rattle.arranging_plan.specs.Ordered.{lending_all};
ghost use Rattle.arranging.specs.Calls.{Arranges, Takes};
ghost use Rattle.arranging.specs.Sequence.{sequenced};

use crate::ordered::{AfterTake, OrderingStreams};
use crate::sequenced::SequencingStreams;
use crate::{ordered, sequenced};
use arranging_plan::gate;
use ordering::Arranged;
use sequencing::Sequenced;
use serial::ItemId;
use terms::{Refusal, Sizes};

#[derive(Clone, Copy)]
pub struct AfterArrange {
    pub answer: Result<Arranged, Refusal>,
    pub streams: OrderingStreams,
}

// An item has come on the ordered stream with the id: it goes out, is held, is old or is refused.
pub fn arrange(
    sizes: Sizes,
    streams: OrderingStreams,
    index: &mut [u32],
    lengths: &mut [u16],
    bytes: &mut [u8],
    id: u8,
    item: ItemId,
    payload: &[u8],
    output: &mut [u8],
) -> AfterArrange
    ensures { Arranges sizes (lending_all streams index.old lengths.old bytes.old) id item.0 payload.now output.old result index.new lengths.new bytes.new output.new }
{
    if let Err(why) = gate::check(sizes, streams, index, lengths, bytes, output) {
        return AfterArrange {
            answer: Err(why),
            streams,
        };
    }
    let f = sizes.fragment_size;
    if f < payload.len() {
        return AfterArrange {
            answer: Err(Refusal::TooLong),
            streams,
        };
    }
    let planned = arranging_plan::ordered::judge(streams, index, id, item);
    let j = planned.at;
    let answer = planned.plan;
    if gate::refused(answer) {
        return AfterArrange { answer, streams };
    }
    ordering::doing::hand_out(answer, payload, output);
    AfterArrange {
        answer,
        streams: ordered::perform(
            streams, f, index, lengths, bytes, j, answer, id, item, payload,
        ),
    }
}

// The item that is expected on the ordered stream with the id is handed out, if it is held.
pub fn take(
    sizes: Sizes,
    streams: OrderingStreams,
    index: &mut [u32],
    lengths: &mut [u16],
    bytes: &mut [u8],
    id: u8,
    output: &mut [u8],
) -> AfterTake
    ensures { Takes sizes (lending_all streams index.old lengths.old bytes.old) id output.old result index.new lengths.new bytes.new output.new }
{
    if let Err(why) = gate::check(sizes, streams, index, lengths, bytes, output) {
        return AfterTake {
            answer: Err(why),
            streams,
        };
    }
    ordered::take_next(
        streams,
        sizes.fragment_size,
        index,
        lengths,
        bytes,
        id,
        output,
    )
}

#[derive(Clone, Copy)]
pub struct AfterSequence {
    pub answer: Result<Sequenced, Refusal>,
    pub streams: SequencingStreams,
}

// An item has come on the sequenced stream with the id: it goes out, is dropped or is refused. Nothing is lent, so that of the
// first three refusals only 13 can be.
pub fn sequence(streams: SequencingStreams, id: u8, item: ItemId) -> AfterSequence
    ensures { result ≡ sequenced streams id item }
{
    if !streams.known.sound() {
        return AfterSequence {
            answer: Err(Refusal::BadState),
            streams,
        };
    }
    let j = streams.known.place(id);
    if j == 4 {
        return AfterSequence {
            answer: Err(Refusal::NoStream),
            streams,
        };
    }
    let after = sequenced::arrange(streams, j, id, item);
    AfterSequence {
        answer: Ok(after.answer),
        streams: after.streams,
    }
}
