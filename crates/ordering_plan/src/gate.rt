// 1, 2 and 13, which every call of a user tries first.
ghost use Rattle.std.specs.Prelude.{◌≡◌, ◌≤◌, length};
ghost use Rattle.ordering_plan.specs.State.{lending};
ghost use Rattle.ordering_plan.specs.Gate.{all_fit, sound as soundness, gate_of};

use crate::OrderingStream;
use terms::{Refusal, Sizes};

pub fn check(
    sizes: Sizes,
    stream: OrderingStream,
    index: &[u32],
    lengths: &[u16],
    bytes: &[u8],
    output: &[u8],
) -> Result<(), Refusal>
    ensures { result ≡ gate_of sizes (lending stream index.now lengths.now bytes.now) output.now }
{
    if !sizes.in_range() {
        return Err(Refusal::BadSizes);
    }
    let f = sizes.fragment_size;
    if index.len() < 64
        || lengths.len() < 64
        || bytes.len() < 64 * f
        || output.len() < 16 * f + 17
    {
        return Err(Refusal::BadStorage);
    }
    if !sound(stream, f, index, lengths) {
        return Err(Refusal::BadState);
    }
    Ok(())
}

// For the crates above: requires tables of 64 places. Not 13.
pub fn sound(stream: OrderingStream, f: usize, index: &[u32], lengths: &[u16]) -> bool
    requires { (64 ≤ length index.now) × (64 ≤ length lengths.now) }
    ensures { result ≡ soundness f stream index.now lengths.now }
{
    let held = stream.held;
    if 64 < held {
        return false;
    }
    if !all_fit(&lengths[..held], f) {
        return false;
    }
    !keys::has_twice(&index[..held])
}

// No length is over f. It looks at every length, so that the loop needs no branch.
fn all_fit(lengths: &[u16], f: usize) -> bool
    ensures { result ≡ all_fit f lengths.now }
{
    let mut longest: u16 = 0;
    for length in lengths {
        longest = longest.max(*length);
    }
    longest as usize <= f
}
