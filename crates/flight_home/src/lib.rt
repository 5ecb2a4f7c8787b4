// The packets in flight, where they stand at their own places: the quick ways to what `flight` answers by a walk over every
// place. Read `home::is_home` first: it sees whether they do. `direct` then places, finds and removes a number at its own
// place, and where they do not stand so it walks, as `flight` does. Every function here is for the crates above. It leaves
// out what is stored and what is dropped: those are `flight`'s.
#![tactic(auto)]

pub mod direct;
pub mod home;
