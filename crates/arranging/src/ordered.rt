// What is done with the ordered streams of an end. `arranging_plan` judges it first, and has the type of the streams.
ghost use Rattle.std.specs.Prelude.{◌≡◌, ◌*◌, ◌≤◌, ◌<◌, length, Ok};
ghost use Rattle.arranging_plan.specs.Ordered.{stream_at, lending_all, state_at, stored_at, LeavesAll, RoomForAll, part};
ghost use Rattle.arranging.specs.Steps.{TakesOn, numbered_at};
ghost use Rattle.ordering_plan.specs.Arrange.{arranged, plan_of};

pub use arranging_plan::ordered::OrderingStreams;
use ordering_plan::Arranged;
use serial::ItemId;
use terms::Refusal;

#[derive(Clone, Copy)]
pub struct AfterTake {
    pub answer: Result<Option<usize>, Refusal>,
    pub streams: OrderingStreams,
}

#[derive(Clone, Copy)]
pub struct NewItem {
    pub item: ItemId,
    pub streams: OrderingStreams,
}

// Carries out a plan on the stream at place j, which is made. For the crates above: requires sound streams and the item's own
// plan.
pub fn perform(
    streams: OrderingStreams,
    f: usize,
    index: &mut [u32],
    lengths: &mut [u16],
    bytes: &mut [u8],
    j: usize,
    plan: Result<Arranged, Refusal>,
    id: u8,
    item: ItemId,
    payload: &[u8],
) -> OrderingStreams
    requires { RoomForAll f (lending_all streams index.old lengths.old bytes.old) × (j < 4) × (length payload.now ≤ f) × (plan ≡ plan_of (stream_at streams j) (part index.old (j * 64) 64) item.0) }
    ensures { LeavesAll (stored_at f (lending_all streams index.old lengths.old bytes.old) j id (arranged plan f item.0 payload.now (state_at f (lending_all streams index.old lengths.old bytes.old) j))) result index.new lengths.new bytes.new }
{
    let stream = streams.at(j);
    let at = j * 64;
    let room = 64 * f;
    let from = j * room;
    let after = ordering::doing::perform(
        stream,
        f,
        &mut index[at..at + 64],
        &mut lengths[at..at + 64],
        &mut bytes[from..from + room],
        plan,
        item,
        payload,
    );
    streams.with(j, id, after)
}

// The item that is expected on the stream with the id is taken. For the crates above: requires sound streams and an output of F
// bytes.
pub fn take_next(
    streams: OrderingStreams,
    f: usize,
    index: &mut [u32],
    lengths: &mut [u16],
    bytes: &mut [u8],
    id: u8,
    output: &mut [u8],
) -> AfterTake
    requires { RoomForAll f (lending_all streams index.old lengths.old bytes.old) × (f ≤ length output.old) }
    ensures { TakesOn f (lending_all streams index.old lengths.old bytes.old) id output.old result index.new lengths.new bytes.new output.new }
{
    let j = streams.known.place(id);
    if streams.known.made <= j {
        return AfterTake {
            answer: Ok(None),
            streams,
        };
    }
    let stream = streams.at(j);
    let at = j * 64;
    let room = 64 * f;
    let from = j * room;
    let after = ordering::taking::take_next(
        stream,
        f,
        &mut index[at..at + 64],
        &mut lengths[at..at + 64],
        &mut bytes[from..from + room],
        output,
    );
    AfterTake {
        answer: after.answer,
        streams: streams.with(j, id, after.stream),
    }
}

// The identifier of an item that is sent on the stream at place j. For the crates above: requires a place of the 4.
pub fn number_item(streams: OrderingStreams, j: usize, id: u8) -> NewItem
    requires { (j < 4) × (streams.known.made ≤ 4) }
    ensures { result ≡ numbered_at streams j id }
{
    let new = streams.at(j).new_item_identifier();
    NewItem {
        item: new.item,
        streams: streams.with(j, id, new.stream),
    }
}
