// Tests of 32 words of packets in flight at a time, without a branch for each, so that the compiler looks at several at once.
// What they say where they hold is exact; where they do not hold they say nothing.
ghost use Rattle.std.specs.Prelude.{◌≡◌, ℕ, ◌+◌, ◌<◌, ◌≤◌, true, length, slice_index};
ghost use Rattle.key_parts.specs.Words.{no_packet, Word, Placed};

// How many words a part has.
pub const PART: usize = 32;

// The least word that has no packet.
pub const NO_PACKET: u32 = 2147483648;

// Each number of the part is its place added to one of two numbers, and no length is over `room`. Requires the part.
pub fn in_step(words: &[u32], at: usize, lap: u32, last: u32, room: u32) -> bool
    requires { (at + 32 ≤ length words.now) × (at < 65536) × (lap < 65536) × (last < 65536) }
    ensures { result ≡ true → (k : ℕ) → k < 32 → Placed room lap last (at + k) (slice_index words.now (at + k)) }
{
    let mut all = u32::MAX;
    for (k, word) in words[at..at + PART].iter().enumerate() {
        let place = (at + k) as u32;
        all &= unless(*word, lap + place, last + place, room);
    }
    NO_PACKET <= all
}

// A word, or one without a packet where its number is one of two and its length is not over `room`.
fn unless(word: u32, this: u32, that: u32, room: u32) -> u32
    ensures { no_packet ≤ result → Word room this that word }
{
    if room < word % 32768 {
        return word;
    }
    if word / 32768 == this || word / 32768 == that {
        return u32::MAX;
    }
    word
}
