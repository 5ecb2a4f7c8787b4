// For the crates above: what `ordering_plan` planned for an item is carried out.
ghost use Rattle.std.specs.Prelude.{◌≡◌, ◌≤◌, ◌<◌, length, Ok};
ghost use Rattle.ordering_plan.specs.State.{lending, Leaves, written};
ghost use Rattle.ordering_plan.specs.Arrange.{plan_of, handed_out, stepped, grown, arranged};
ghost use Rattle.ordering_plan.specs.Room.{Room};

use ordering_plan::{Arranged, OrderingStream};
use serial::ItemId;
use terms::Refusal;

// Carries out a plan: a refusal leaves everything. For the crates above: requires a sound stream, a payload to F and its own plan.
pub fn perform(
    stream: OrderingStream,
    f: usize,
    index: &mut [u32],
    lengths: &mut [u16],
    bytes: &mut [u8],
    plan: Result<Arranged, Refusal>,
    item: ItemId,
    payload: &[u8],
) -> OrderingStream
    requires { Room f (lending stream index.old lengths.old bytes.old) × (length payload.now ≤ f) × (plan ≡ plan_of stream index.old item.0) }
    ensures { Leaves (arranged plan f item.0 payload.now (lending stream index.old lengths.old bytes.old)) result index.new lengths.new bytes.new }
{
    let Ok(plan) = plan else {
        return stream;
    };
    match plan {
        Arranged::Out => step(stream),
        Arranged::Held(k) => hold(k, stream, f, index, lengths, bytes, item, payload),
        Arranged::Old => stream,
    }
}

// An item that goes out is written to the output. For the crates above: requires room for it.
pub fn hand_out(plan: Result<Arranged, Refusal>, payload: &[u8], output: &mut [u8])
    requires { length payload.now ≤ length output.old }
    ensures { output.new ≡ written (handed_out plan payload.now) output.old }
{
    if let Ok(Arranged::Out) = plan {
        copying::copy(payload, output);
    }
}

// The next index is expected.
fn step(stream: OrderingStream) -> OrderingStream
    ensures { result ≡ stepped stream }
{
    let expected_index = stream.expected_index.successor();
    OrderingStream {
        expected_index,
        ..stream
    }
}

// The item is held at place k.
fn hold(
    k: usize,
    stream: OrderingStream,
    f: usize,
    index: &mut [u32],
    lengths: &mut [u16],
    bytes: &mut [u8],
    item: ItemId,
    payload: &[u8],
) -> OrderingStream
    requires { Room f (lending stream index.old lengths.old bytes.old) × (length payload.now ≤ f) × (k < 64) }
    ensures { Leaves (arranged (Ok (Arranged.Held k)) f item.0 payload.now (lending stream index.old lengths.old bytes.old)) result index.new lengths.new bytes.new }
{
    let at = k * f;
    let n = payload.len();
    copying::copy(payload, &mut bytes[at..at + n]);
    index[k] = item.0 as u32;
    lengths[k] = n as u16;
    grow(stream, k)
}

// One more is held where the place is a free one.
fn grow(stream: OrderingStream, k: usize) -> OrderingStream
    requires { stream.held ≤ 64 }
    ensures { result ≡ grown stream k }
{
    if k == stream.held {
        return OrderingStream {
            held: stream.held + 1,
            ..stream
        };
    }
    stream
}
