// 1, 2 and 13 for all ordered streams, which every call of a user tries first.
ghost use Rattle.std.specs.Prelude.{◌≡◌, ◌≤◌};
ghost use Rattle.arranging_plan.specs.Ordered.{lending_all};
ghost use Rattle.arranging_plan.specs.Gate.{too_short, gate_of, is_refused};

use crate::ordered::OrderingStreams;
use ordering_plan::Arranged;
use terms::{Refusal, Sizes};

pub fn check(
    sizes: Sizes,
    streams: OrderingStreams,
    index: &[u32],
    lengths: &[u16],
    bytes: &[u8],
    output: &[u8],
) -> Result<(), Refusal>
    ensures { result ≡ gate_of sizes (lending_all streams index.now lengths.now bytes.now) output.now }
{
    if !sizes.in_range() {
        return Err(Refusal::BadSizes);
    }
    let f = sizes.fragment_size;
    if too_short(f, index, lengths, bytes, output) {
        return Err(Refusal::BadStorage);
    }
    if !crate::ordered::sound(streams, f, index, lengths) {
        return Err(Refusal::BadState);
    }
    Ok(())
}

// A lent buffer is shorter than stated. For the crates above: requires F in range.
#[tactic(auto, unfolding(crate::specs::Gate::too_short))]
pub fn too_short(f: usize, index: &[u32], lengths: &[u16], bytes: &[u8], output: &[u8]) -> bool
    requires { f ≤ 1024 }
    ensures { result ≡ too_short f index.now lengths.now bytes.now output.now }
{
    index.len() < 256 || lengths.len() < 256 || bytes.len() < 256 * f || output.len() < 16 * f + 17
}

pub fn refused(plan: Result<Arranged, Refusal>) -> bool
    ensures { result ≡ is_refused plan }
{
    plan.is_err()
}
