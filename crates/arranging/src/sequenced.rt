// The sequenced streams of an end, as the ordered ones are in `arranging_plan` and `ordered`. The two stay two structs: the
// theorems of `arranging_laws` and `link_laws` name the fields of each, and would name a generic stream's bounds beside them.
ghost use Rattle.std.specs.Prelude.{◌≡◌, ◌≤◌, ◌<◌};
ghost use Rattle.arranging.specs.Sequenced.{no_streams, stream_at, stored_at, arranged_at, numbered_at};

use arranging_plan::ids::StreamIds;
use sequencing::{Sequenced, SequencingStream};
use serial::ItemId;

#[derive(Clone, Copy)]
pub struct SequencingStreams {
    pub known: StreamIds,
    pub streams: [SequencingStream; 4],
}

#[derive(Clone, Copy)]
pub struct AfterArrange {
    pub answer: Sequenced,
    pub streams: SequencingStreams,
}

#[derive(Clone, Copy)]
pub struct NewItem {
    pub item: ItemId,
    pub streams: SequencingStreams,
}

impl SequencingStreams {
    pub fn none() -> SequencingStreams
        ensures { result ≡ no_streams }
    {
        SequencingStreams {
            known: StreamIds::none(),
            streams: [SequencingStream::new(); 4],
        }
    }

    // The counters at place j. For the crates above: requires a place of the 4.
    #[tactic(auto, unfolding(crate::specs::Sequenced::stream_at))]
    pub fn at(self, j: usize) -> SequencingStream
        requires { j < 4 }
        ensures { result ≡ stream_at self j }
    {
        if j < self.known.made {
            return self.streams[j];
        }
        SequencingStream::new()
    }

    // The stream at place j is this one, under the id. For the crates above: requires a place of the 4.
    pub fn with(self, j: usize, id: u8, stream: SequencingStream) -> SequencingStreams
        requires { (j < 4) × (self.known.made ≤ 4) }
        ensures { result ≡ stored_at self j id stream }
    {
        let mut next = self;
        next.known = self.known.with(j, id);
        next.streams[j] = stream;
        next
    }
}

// An item has come on the stream at place j. For the crates above: requires a place of the 4.
pub fn arrange(streams: SequencingStreams, j: usize, id: u8, item: ItemId) -> AfterArrange
    requires { (j < 4) × (streams.known.made ≤ 4) }
    ensures { result ≡ arranged_at streams j id item }
{
    let after = sequencing::arrange(streams.at(j), item);
    AfterArrange {
        answer: after.answer,
        streams: streams.with(j, id, after.stream),
    }
}

// The identifier of an item that is sent on the stream at place j. For the crates above: requires a place of the 4.
pub fn number_item(streams: SequencingStreams, j: usize, id: u8) -> NewItem
    requires { (j < 4) × (streams.known.made ≤ 4) }
    ensures { result ≡ numbered_at streams j id }
{
    let new = streams.at(j).new_item_identifier();
    NewItem {
        item: new.item,
        streams: streams.with(j, id, new.stream),
    }
}
