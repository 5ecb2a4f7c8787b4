// One sequenced stream: an item that is not older than the newest goes on, any other is dropped. Nothing is held, so an item
// that goes out is the caller's own payload, no storage is lent, and no call is refused.
#![tactic(auto)]

ghost use Rattle.std.specs.Prelude.{◌≡◌};
ghost use Rattle.sequencing.specs.Sequence.{fresh, arranged, numbered};

use serial::ItemId;

#[derive(Clone, Copy)]
pub struct SequencingStream {
    // The newest index seen.
    pub top_index: ItemId,
    // The identifier of the next item sent.
    pub next_item: ItemId,
}

// What becomes of an item that has come.
#[derive(Clone, Copy)]
pub enum Sequenced {
    Out,
    Dropped,
}

#[derive(Clone, Copy)]
pub struct AfterArrange {
    pub answer: Sequenced,
    pub stream: SequencingStream,
}

#[derive(Clone, Copy)]
pub struct NewItem {
    pub item: ItemId,
    pub stream: SequencingStream,
}

impl SequencingStream {
    pub fn new() -> SequencingStream
        ensures { result ≡ fresh }
    {
        SequencingStream {
            top_index: ItemId(0),
            next_item: ItemId(0),
        }
    }

    // The identifier of an item that is sent on this stream.
    pub fn new_item_identifier(self) -> NewItem
        ensures { result ≡ numbered self }
    {
        let item = self.next_item;
        let next_item = item.successor();
        NewItem {
            item,
            stream: SequencingStream { next_item, ..self },
        }
    }
}

// An item has come: it goes out, or is dropped.
pub fn arrange(stream: SequencingStream, item: ItemId) -> AfterArrange
    ensures { result ≡ arranged stream item }
{
    if 32768 < serial::distance(item.0, stream.top_index.0) {
        return AfterArrange {
            answer: Sequenced::Dropped,
            stream,
        };
    }
    AfterArrange {
        answer: Sequenced::Out,
        stream: SequencingStream {
            top_index: item,
            ..stream
        },
    }
}
