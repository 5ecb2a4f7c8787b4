// Replays a script over the port: reads its fields on standard input and prints one line for each, to the end of the
// script or to the first field that is none, which prints `bad`. laminar's lines for the same script are the same.
// Read the crate `script` for the form of a field, then the operations in question: those of the connections in the crate
// `replay_connection`, those of the single modules in `replay_modules`.
#![tactic(auto)]

use replay_connection::Ends;
use replay_modules::Modules;
use script::{Field, Output, Script, Stop};
use std::io::Read;

// All that a script can make. Their memory is there from the start, and an object that is made is begun in its place: this takes
// most of the program's stack, some 3.4 MB, and nothing else may come near to it.
#[derive(Drop)]
struct Objects {
    modules: Modules,
    ends: Ends,
}

// A run ends with status 0, also where standard output cannot be written.
fn main(rt: HostRuntime) {
    let out = Output(&rt);
    let mut script = Script::new(rt.stdin());
    if let Err(Stop::Bad) = replay(&mut script, &out) {
        let _ = println!(out; "bad");
    }
}

// A proved loop has to end, and nothing says that the input does: no run uses up so many turns.
fn replay<R: Read + Drop>(script: &mut Script<R>, out: &impl Print) -> Result<(), Stop> {
    let mut objects = Objects {
        modules: Modules::new(),
        ends: Ends::new(),
    };
    for _ in 0..u64::MAX {
        let Some(field) = script.field()? else {
            break;
        };
        objects.step(field, out)?;
    }
    Ok(())
}

impl Objects {
    // One field.
    fn step(&mut self, field: Field<'_>, out: &impl Print) -> Result<(), Stop> {
        match field.tag {
            0x70..=0x8F => self.ends.step(field, out),
            _ => self.modules.step(field, out),
        }
    }
}
