// For the crates above: the item that is expected is taken out of those held.
ghost use Rattle.std.specs.Prelude.{◌≡◌, ◌+◌, ◌≤◌, length, drop};
ghost use Rattle.std.proofs.Math.Seq.{paste};
ghost use Rattle.ordering_plan.specs.State.{lending};
ghost use Rattle.ordering.specs.Take.{TakesNext, shrunk};
ghost use Rattle.ordering_plan.specs.Room.{Room};

use crate::AfterTake;
use ordering_plan::OrderingStream;

// The item goes to the output, and the last held one takes its place. For the crates above: requires a sound stream and an
// output of F bytes.
pub fn take_next(
    stream: OrderingStream,
    f: usize,
    index: &mut [u32],
    lengths: &mut [u16],
    bytes: &mut [u8],
    output: &mut [u8],
) -> AfterTake
    requires { Room f (lending stream index.old lengths.old bytes.old) × (f ≤ length output.old) }
    ensures { TakesNext f (lending stream index.old lengths.old bytes.old) output.old result index.new lengths.new bytes.new output.new }
{
    let held = stream.held;
    let expected = stream.expected_index;
    let Some(k) = keys::find(&index[..held], expected.0) else {
        return AfterTake {
            answer: Ok(None),
            stream,
        };
    };
    let n = lengths[k] as usize;
    let at = k * f;
    copying::copy(&bytes[at..at + n], output);
    let last = held - 1;
    let last_index = index[last];
    let last_length = lengths[last];
    move_down(bytes, last * f, at, last_length as usize);
    index[k] = last_index;
    lengths[k] = last_length;
    AfterTake {
        answer: Ok(Some(n)),
        stream: shrink(stream),
    }
}

// n bytes are copied from one place down to another. Those that are there already are left: mostly the last held is the one
// that is taken.
fn move_down(bytes: &mut [u8], from: usize, to: usize, n: usize)
    requires { (to ≤ from) × (from + n ≤ length bytes.old) }
    ensures { bytes.new ≡ paste bytes.old to (drop from bytes.old) n }
{
    if to != from {
        bytes.copy_within(from..from + n, to);
    }
}

// The next index is expected, and one item fewer is held.
fn shrink(stream: OrderingStream) -> OrderingStream
    requires { 1 ≤ stream.held }
    ensures { result ≡ shrunk stream }
{
    let expected_index = stream.expected_index.successor();
    OrderingStream {
        expected_index,
        held: stream.held - 1,
        ..stream
    }
}
