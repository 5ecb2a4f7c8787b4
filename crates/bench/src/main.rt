// Performs a script of calls over one end of a link, for bench/run to count the instructions of those that are marked against
// the Rust's. It prints a digest of every datagram sent and every item handed out. Read `script`, then `connection`.
#![tactic(auto)]

mod connection;
mod digest;
mod marks;
mod script;

use connection::Connection;
use digest::Digest;
use script::Script;

fn main(rt: HostRuntime) {
    let mut script = Script::new(rt.stdin());
    let (sizes, steps) = script.begin();
    let mut connection = Connection::new(sizes);
    let mut digest = Digest::new();
    // The first step is performed in any case.
    for _ in 0..steps.max(1) {
        let step = script.next(rt.stdout());
        digest.add(connection.perform(step));
    }
    // Where standard output cannot be written the work was done all the same.
    let _ = println!(rt; "{digest}");
}
