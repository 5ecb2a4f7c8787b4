// One end of a link, for its user. Read `receive`, `take` and `send` first; `new` makes a fresh end. Every call here takes any
// sizes, any state, any buffers and any bytes, and ends: it tries 1, 2 and 13 by one gate, and then does what the crates below
// do. What comes is in crate link_incoming, what goes out in link_outgoing, and here is the rest, under one name with them. A
// Rattle program that carries the proof that its end is sound calls the crates below those: `receiving::receive`,
// `sending::transmit`, `datagrams::further::fragment`. It leaves out sockets, clocks, and when to send something again.
#![tactic(auto)]

pub mod drops;
pub mod fresh;
pub mod status;

pub use drops::dropped;
pub use fresh::new;
pub use link_incoming::{receive, take, taking};
pub use link_outgoing::{fragment, resend, send};
pub use status::report;
