// What comes to one end of a link. Read `receive` first: a datagram has come. `take` hands out what waits on an ordered stream.
// Each takes any sizes, any state, any buffers and any bytes, and ends: it tries 1, 2 and 13 by one gate, and then does what the
// crates below do. A user calls them by crate link, as `link::receive`. It leaves out what goes out: crate link_outgoing.
#![tactic(auto)]

pub mod incoming;
pub mod taking;

pub use incoming::receive;
pub use taking::take;
