// The operations of ordered and sequenced items and of messages in a script. Only the crate `replay_modules` uses this one,
// and its comment says what a `step` is.
#![tactic(auto)]

pub mod fragments;
pub mod ordered;
pub mod sequenced;
