// What bench/run counts lies between two marks: writes of no bytes, which its plugin of the emulator sees.
use std::io::{Stdout, Write};

// What is counted of a step, if anything is: its call, the check alone, or nothing between two marks.
#[derive(Clone, Copy, PartialEq, Eq)]
pub enum Counted {
    Nothing,
    TheCall,
    TheCheck,
    TheMarks,
}

impl From<u8> for Counted {
    fn from(byte: u8) -> Counted {
        match byte {
            1 => Counted::TheCall,
            2 => Counted::TheCheck,
            3 => Counted::TheMarks,
            _ => Counted::Nothing,
        }
    }
}

// The marks of a step.
#[derive(Clone, Copy)]
pub struct Marks {
    pub stdout: Stdout,
    pub counted: Counted,
}

impl Marks {
    // A mark, where this is what is counted.
    pub fn set(mut self, around: Counted) {
        if self.counted == around {
            let _ = self.stdout.write(b"");
        }
    }
}
