// The operations of the single modules in a script: tags below 70. A module has a `step`, which is given the fields with its
// own tags and the object that they are about, which says whether it was made. Only the program `replay` uses this crate.
#![tactic(auto)]

use replay_items::fragments::{self, Messages};
use replay_items::ordered::{self, Ordered};
use replay_items::sequenced;
use replay_packets::ack::{self, Ack};
use replay_packets::buffer::{self, Buffer};
use script::{Body, Field, Stop};
use sequencing::SequencingStream;

// The objects of the single modules. The large ones are there from the start, since one that came later would be made elsewhere
// and moved here: that would take as much of the stack again, and that time at each one.
#[derive(Clone, Copy)]
pub struct Modules {
    buffer: Option<Buffer>,
    end: Ack,
    messages: Messages,
    ordered: Ordered,
    sequenced: Option<SequencingStream>,
}

impl Modules {
    pub fn new() -> Modules {
        Modules {
            buffer: None,
            end: Ack::new(),
            messages: Messages::new(),
            ordered: Ordered::new(),
            sequenced: None,
        }
    }

    // A field of another tag is bad.
    pub fn step(&mut self, field: Field<'_>, out: &impl Print) -> Result<(), Stop> {
        match field.tag {
            0x00 => comment(field.body, out),
            0x10..=0x19 => buffer::step(&mut self.buffer, field, out),
            0x20..=0x25 => ack::step(&mut self.end, field, out),
            0x40..=0x44 => fragments::step(&mut self.messages, field, out),
            0x50..=0x55 => ordered::step(&mut self.ordered, field, out),
            0x58..=0x5A => sequenced::step(&mut self.sequenced, field, out),
            _ => Err(Stop::Bad),
        }
    }
}

// A line of text.
fn comment(body: Body<'_>, out: &impl Print) -> Result<(), Stop> {
    print!(out; "# ")?;
    out.write_all(body.0)?;
    println!(out)?;
    Ok(())
}
