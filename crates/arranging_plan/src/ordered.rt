// The ordered streams of an end, and what is judged of them.
ghost use Rattle.std.specs.Prelude.{◌≡◌, ℕ, ◌*◌, ◌≤◌, ◌<◌, length, set};
ghost use Rattle.arranging_plan.specs.Ids.{made_at};
ghost use Rattle.arranging_plan.specs.Ordered.{no_streams, stream_at, plan_on, part, sound_all};
ghost use Rattle.ordering_plan.specs.Gate.{sound as soundness};

use crate::ids::StreamIds;
use ordering_plan::{Arranged, OrderingStream};
use serial::ItemId;
use terms::Refusal;

#[derive(Clone, Copy)]
pub struct OrderingStreams {
    pub known: StreamIds,
    pub streams: [OrderingStream; 4],
}

// What is to become of an item, and the place of its stream.
#[derive(Clone, Copy)]
pub struct Planned {
    pub at: usize,
    pub plan: Result<Arranged, Refusal>,
}

impl OrderingStreams {
    pub fn none() -> OrderingStreams
        ensures { result ≡ no_streams }
    {
        OrderingStreams {
            known: StreamIds::none(),
            streams: [OrderingStream::new(); 4],
        }
    }

    // The counters at place j. For the crates above: requires a place of the 4.
    #[tactic(auto, unfolding(crate::specs::Ordered::stream_at))]
    pub fn at(self, j: usize) -> OrderingStream
        requires { j < 4 }
        ensures { result ≡ stream_at self j }
    {
        if j < self.known.made {
            return self.streams[j];
        }
        OrderingStream::new()
    }

    // The stream at place j is this one, under the id. For the crates above: requires a place of the 4.
    pub fn with(self, j: usize, id: u8, stream: OrderingStream) -> OrderingStreams
        requires { (j < 4) × (self.known.made ≤ 4) }
        ensures { result ≡ record { known = made_at self.known j id; streams = set self.streams j stream } }
    {
        let mut next = self;
        next.known = self.known.with(j, id);
        next.streams[j] = stream;
        next
    }
}

// What is to become of an item on the stream with the id. For the crates above: requires sound streams.
pub fn judge(streams: OrderingStreams, index: &[u32], id: u8, item: ItemId) -> Planned
    requires { (streams.known.made ≤ 4) × (256 ≤ length index.now) × ((j : ℕ) → j < 4 → (stream_at streams j).held ≤ 64) }
    ensures { result ≡ plan_on streams index.now id item.0 }
{
    let j = streams.known.place(id);
    if j == 4 {
        return Planned {
            at: 4,
            plan: Err(Refusal::NoStream),
        };
    }
    let stream = streams.at(j);
    let from = j * 64;
    Planned {
        at: j,
        plan: ordering_plan::plan::judge(stream, &index[from..from + 64], item),
    }
}

// Not 13. For the crates above: requires tables of 4 x 64 places.
pub fn sound(streams: OrderingStreams, f: usize, index: &[u32], lengths: &[u16]) -> bool
    requires { (256 ≤ length index.now) × (256 ≤ length lengths.now) }
    ensures { result ≡ sound_all f streams index.now lengths.now }
{
    if !streams.known.sound() {
        return false;
    }
    for j in 0..streams.known.made {
        if !sound_at(streams, f, index, lengths, j) {
            return false;
        }
    }
    true
}

fn sound_at(streams: OrderingStreams, f: usize, index: &[u32], lengths: &[u16], j: usize) -> bool
    requires { (256 ≤ length index.now) × (256 ≤ length lengths.now) × (j < 4) }
    ensures { result ≡ soundness f (stream_at streams j) (part index.now (j * 64) 64) (part lengths.now (j * 64) 64) }
{
    let at = j * 64;
    let stream = streams.at(j);
    ordering_plan::gate::sound(stream, f, &index[at..at + 64], &lengths[at..at + 64])
}
