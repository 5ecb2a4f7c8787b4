// A payload as pieces of F bytes, the last shorter. A piece is a part of the same payload, found from lengths alone.
// Read `check` first. It leaves out headers and the sending itself: those are the link's.
#![tactic(auto)]

ghost use Rattle.std.specs.Prelude.{◌≡◌, [], ◌≤◌, ◌<◌, length, get_or};
ghost use Rattle.splitter.specs.Split.{needed, pieces, split_of, Splits};

use terms::{Refusal, Sizes};

// 1, 5 over 65,535 bytes, 8 where more than M pieces are needed.
pub fn check(sizes: Sizes, length: usize) -> Result<usize, Refusal>
    ensures { result ≡ split_of sizes length }
{
    if !sizes.in_range() {
        return Err(Refusal::BadSizes);
    }
    if 65535 < length {
        return Err(Refusal::TooLong);
    }
    let count = fragments_needed(length, sizes.fragment_size);
    if sizes.max_fragments < count {
        return Err(Refusal::ExceededMaxFragments);
    }
    Ok(count)
}

// How many pieces a length has. For the crates above: requires F from 1 to 1,024.
pub fn fragments_needed(length: usize, f: usize) -> usize
    requires { (1 ≤ f) × (f ≤ 1024) }
    ensures { result ≡ needed length f }
{
    length.div_ceil(f)
}

// Piece j. For the crates above: requires F from 1 to 1,024, and j below the number of pieces.
pub fn fragment(payload: &[u8], f: usize, j: usize) -> &[u8]
    requires { (1 ≤ f) × (f ≤ 1024) × (j < needed (length payload.now) f) }
    ensures { result.now ≡ get_or (pieces f payload.now) j [] }
{
    let start = j * f;
    let left = payload.len() - start;
    if f < left {
        return &payload[start..start + f];
    }
    &payload[start..]
}

// The pieces of a payload in order are the payload. It has no code: its contract is the theorem.
pub fn splits_whole()
    ensures { Splits }
{}
