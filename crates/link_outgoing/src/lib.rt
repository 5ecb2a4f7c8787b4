// What goes out of one end of a link. Read `send` first; `resend` sends again what was given up, and `fragment` writes the further
// fragments of an item over F. Each takes any sizes, any state, any buffers and any bytes, and ends: it tries 1, 2 and 13 by one
// gate, and then does what the crates below do. A user calls them by crate link, as `link::send`. It leaves out what comes: crate
// link_incoming.
#![tactic(auto)]

pub mod outgoing;

pub use outgoing::{fragment, resend, send};
