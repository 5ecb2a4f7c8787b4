// What shows which work was done: the sum of the bytes that went out, and the sum of those sums, which their order changes.
use std::fmt;

#[derive(Clone, Copy)]
pub struct Digest {
    sum: u32,
    sums: u32,
}

impl Digest {
    pub fn new() -> Digest {
        Digest { sum: 0, sums: 0 }
    }

    pub fn add(&mut self, bytes: &[u8]) {
        for byte in bytes {
            self.sum = self.sum.wrapping_add(u32::from(*byte));
            self.sums = self.sums.wrapping_add(self.sum);
        }
    }
}

impl fmt::Display for Digest {
    fn fmt<W: fmt::Write>(&self, f: &mut fmt::Formatter<W>) -> fmt::Result {
        let sum = self.sum;
        let sums = self.sums;
        write!(f, "{sum} {sums}")
    }
}
