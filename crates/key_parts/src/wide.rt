// Tests of 64 words at a time, as `parts` has them of 32: enough for the compiler to make a loop over several at once.
ghost use Rattle.std.specs.Prelude.{◌≡◌, ℕ, ◌+◌, ◌/◌, ◌%◌, ◌<◌, ◌≤◌, true, length, slice_index};
ghost use Rattle.key_parts.specs.Words.{no_packet, Word};

use crate::parts::NO_PACKET;

// How many words a wide part has.
pub const WIDE: usize = 64;

// The part's numbers follow each other: each is its place in the part added to a number, which is a multiple of 64, so that
// no sum is to be made. No length is over `room`. Requires the part.
pub fn follows(words: &[u32], at: usize, first: u32, room: u32) -> bool
    requires { (at + 64 ≤ length words.now) × (first < 65536) × (first % 64 ≡ 0) × (room ≤ 16384) }
    ensures { result ≡ true → (k : ℕ) → k < 64 → Word room (first + k) (first + k) (slice_index words.now (at + k)) }
{
    let mut all = u32::MAX;
    for (k, word) in words[at..at + WIDE].iter().enumerate() {
        all &= without(*word, first, k as u32 * 32768, room);
    }
    NO_PACKET <= all
}

// No packet where a word has the number that may stand there and a length to `room`, and a packet where it has another. `place` is
// the word of the place in the part, with no length.
fn without(word: u32, first: u32, place: u32, room: u32) -> u32
    requires { (first < 65536) × (first % 64 ≡ 0) × (place < 2097152) × (place % 32768 ≡ 0) × (room ≤ 16384) }
    ensures { no_packet ≤ result → Word room (first + place / 32768) (first + place / 32768) word }
{
    ((word ^ place) ^ (first * 32768)).wrapping_sub(room + 1)
}
