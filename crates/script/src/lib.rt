// The form of a script: fields of a tag, a length of two bytes and a body; numbers high byte first. And how a line tells what
// came of a field. Only the program `replay` and its modules use this crate.
#![tactic(auto)]

ghost use Rattle.std.specs.Prelude.{◌≡◌, ◌≤◌, ◌<◌, [], length, take};

use std::io;

mod fields;
mod numbers;
mod output;
#[cfg(test)]
mod tests;
mod text;

pub use fields::{Field, Script};
pub use numbers::Body;
pub use output::Output;
pub use text::{Bits, Hex, Record, Refused};

// Why a run ends at a field.
#[derive(Debug, Drop)]
pub enum Stop {
    // The field is cut off, of the wrong form, or of no operation.
    Bad,
    // Its line could not be written: `Output` leaves that out.
    Output(io::Error),
}

impl From<io::Error> for Stop {
    fn from(error: io::Error) -> Stop {
        Stop::Output(error)
    }
}

// The line of an operation whose object was never made.
pub fn missing(out: &impl Print) -> Result<(), Stop> {
    println!(out; "missing")?;
    Ok(())
}

// The first bytes of an output, none where it has not so many.
pub fn front(bytes: &[u8], count: usize) -> &[u8]
    ensures there { count ≤ length bytes.now → result.now ≡ take count bytes.now }
    ensures none { length bytes.now < count → result.now ≡ [] }
{
    bytes.get(..count).unwrap_or(&[])
}
