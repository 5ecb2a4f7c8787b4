// The operations of packet numbers and of acknowledgments in a script. Only the crate `replay_modules` uses this one, and its
// comment says what a `step` is.
#![tactic(auto)]

pub mod ack;
pub mod buffer;
