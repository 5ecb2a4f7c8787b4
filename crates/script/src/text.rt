// How a line tells what is neither a word nor a decimal number.
use flight::SentPacket;
use std::fmt;
use terms::Refusal;

// Two lower-case hex digits for each byte, `-` where there is none.
#[derive(Clone, Copy)]
pub struct Hex<'a>(pub &'a [u8]);

impl fmt::Display for Hex<'_> {
    fn fmt<W: fmt::Write>(&self, f: &mut fmt::Formatter<W>) -> fmt::Result {
        if self.0.is_empty() {
            return write!(f, "-");
        }
        // Eight bytes at a time: one by one takes four times as long.
        let (words, rest) = self.0.as_chunks::<8>();
        for word in words {
            let word = u64::from_be_bytes(*word);
            write!(f, "{word:016x}")?;
        }
        for byte in rest {
            write!(f, "{byte:02x}")?;
        }
        Ok(())
    }
}

// An acknowledgment field of 32 bits: `0x` and eight capital hex digits.
#[derive(Clone, Copy)]
pub struct Bits(pub u32);

impl fmt::Display for Bits {
    fn fmt<W: fmt::Write>(&self, f: &mut fmt::Formatter<W>) -> fmt::Result {
        let bits = self.0;
        write!(f, "0x{bits:08X}")
    }
}

// What is kept of a packet that was given up: `,ORDERING,STREAM,ITEM`.
#[derive(Clone, Copy)]
pub struct Record(pub SentPacket);

impl fmt::Display for Record {
    fn fmt<W: fmt::Write>(&self, f: &mut fmt::Formatter<W>) -> fmt::Result {
        let sent = self.0;
        let stream = sent.stream;
        let item = sent.item.0;
        match sent.ordering {
            0 => write!(f, ",none,-,-"),
            1 => write!(f, ",sequenced,{stream},{item}"),
            _ => write!(f, ",ordered,{stream},{item}"),
        }
    }
}

// A refusal, by its number.
#[derive(Clone, Copy)]
pub struct Refused(pub Refusal);

impl fmt::Display for Refused {
    fn fmt<W: fmt::Write>(&self, f: &mut fmt::Formatter<W>) -> fmt::Result {
        let number = u8::from(self.0);
        write!(f, "refused {number}")
    }
}
