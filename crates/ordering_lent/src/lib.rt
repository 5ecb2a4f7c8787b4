// The thin form of module 4: an ordered stream's counters are lent and change in place, as laminar's stream does.
// `ordering::arrange`, by value, does the work. It leaves out `take`, of which document 01 asks no such form.
#![tactic(auto)]

ghost use Rattle.ordering_plan.specs.State.{lending};
ghost use Rattle.ordering.specs.Calls.{Arranges};
ghost use Rattle.ordering_lent.specs.Lent.{after};

use ordering::{AfterArrange, Arranged, OrderingStream};
use serial::ItemId;
use terms::{Refusal, Sizes};

// An item has come: the caller's stream is what `ordering::arrange` returns.
pub fn arrange(
    sizes: Sizes,
    stream: &mut OrderingStream,
    index: &mut [u32],
    lengths: &mut [u16],
    bytes: &mut [u8],
    item: ItemId,
    payload: &[u8],
    output: &mut [u8],
) -> Result<Arranged, Refusal>
    ensures { Arranges sizes (lending stream.old index.old lengths.old bytes.old) item.0 payload.now output.old (after result stream.new) index.new lengths.new bytes.new output.new }
{
    let after = ordering::arrange(sizes, *stream, index, lengths, bytes, item, payload, output);
    *stream = after.stream;
    after.answer
}

// The same for a caller that keeps its counters by value: they are lent here and come back beside the answer.
pub fn arrange_by_value(
    sizes: Sizes,
    stream: OrderingStream,
    index: &mut [u32],
    lengths: &mut [u16],
    bytes: &mut [u8],
    item: ItemId,
    payload: &[u8],
    output: &mut [u8],
) -> AfterArrange
    ensures { Arranges sizes (lending stream index.old lengths.old bytes.old) item.0 payload.now output.old result index.new lengths.new bytes.new output.new }
{
    let mut lent = stream;
    let answer = arrange(
        sizes, &mut lent, index, lengths, bytes, item, payload, output,
    );
    AfterArrange {
        answer,
        stream: lent,
    }
}
