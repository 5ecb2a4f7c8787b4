// Tests of many entries of a column at once: quick ones, which say nothing where they do not hold. `laps` is about keys, as `keys` has
// them; `parts` and `wide` are about the words of packets in flight. Only the crates above call them.
#![tactic(auto)]

pub mod laps;
pub mod parts;
pub mod wide;
