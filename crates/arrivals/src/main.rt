// The arrival listing: indices of two bytes, high byte first, come from standard input, and a line for each says what a fresh
// ordered stream does with it and which items go out. The items have no bytes: one that is taken has the index expected.
#![tactic(auto)]

use ordering::{Arranged, OrderingStream};
use serial::ItemId;
use std::io::{self, Cursor, Read, Write};
use terms::{Refusal, Sizes};

// The least sizes of a link.
const SIZES: Sizes = Sizes {
    fragment_size: 1,
    reassembly_slots: 1,
    max_fragments: 1,
    packets_in_flight: 1,
    version: 0,
};

// The most items that wait, and the least output that a call takes.
const MOST: usize = 64;

const OUTPUT: usize = 16 + 17;

// A stream, the items that wait in it in the columns that its calls are lent, and where one is written that goes out.
// `replay_items` has one like it: this program is the README's example of a whole one, and stands on the library alone.
#[derive(Drop)]
struct Listed {
    stream: OrderingStream,
    index: [u32; MOST],
    lengths: [u16; MOST],
    bytes: [u8; MOST],
    output: [u8; OUTPUT],
}

// The input is read so many bytes at a time, so that no index lies in two parts. What a part comes to is written before the next is
// read.
const PART: usize = 4096;

// How many bytes of text wait, and how many at most before they are written: so a line, of 400 bytes at most, has room.
const TEXT: usize = 4096;

const WAITING: u64 = 3600;

fn main(rt: HostRuntime) {
    write(b"index answer out\n", &rt);
    list(&mut rt.stdin(), &rt);
}

// The listing goes on where standard output cannot be written.
fn write(bytes: &[u8], out: &impl Print) {
    let _ = out.write_all(bytes);
}

// A proved loop has to end, and nothing says that the input does: this one has more turns than any run uses up.
fn list(input: &mut impl Read, out: &impl Print) {
    let mut listed = Listed::new();
    let mut room = [0; PART];
    for _ in 0..u64::MAX {
        let part = read(input, &mut room);
        listed.arrivals(part, out);
        if part.len() < PART {
            break;
        }
    }
}

// What comes, until the room is full or the input has ended.
fn read<'a>(input: &mut impl Read, room: &'a mut [u8]) -> &'a [u8] {
    let mut count = 0usize;
    for _ in 0..PART {
        match input.read(room.get_mut(count..).unwrap_or(&mut [])) {
            Ok(0) | Err(_) => break,
            Ok(more) => count = count.saturating_add(more),
        }
    }
    room.get(..count).unwrap_or(&[])
}

// Writes the text that waits.
fn write_out(text: &mut Cursor<[u8; TEXT]>, out: &impl Print) {
    let count = text.position() as usize;
    write(text.get_ref().get(..count).unwrap_or(&[]), out);
    text.set_position(0);
}

impl Listed {
    fn new() -> Listed {
        Listed {
            stream: OrderingStream::new(),
            index: [0; MOST],
            lengths: [0; MOST],
            bytes: [0; MOST],
            output: [0; OUTPUT],
        }
    }

    // The arrivals of a part. Where the input ends inside an index a line says so.
    fn arrivals(&mut self, part: &[u8], out: &impl Print) {
        let mut text = Cursor::new([0; TEXT]);
        let (items, rest) = part.as_chunks::<2>();
        for item in items {
            let _ = self.arrival(ItemId(u16::from_be_bytes(*item)), &mut text);
            if WAITING < text.position() {
                write_out(&mut text, out);
            }
        }
        if !rest.is_empty() {
            let _ = writeln!(text, "short");
        }
        write_out(&mut text, out);
    }

    // One arrival, and takes until none.
    fn arrival(&mut self, item: ItemId, out: &mut impl Write) -> io::Result<()> {
        let index = item.0;
        match self.arrange(item) {
            Ok(Arranged::Out) => write!(out, "{index} out {index}")?,
            Ok(Arranged::Held(_)) => write!(out, "{index} held -")?,
            Ok(Arranged::Old) => write!(out, "{index} old -")?,
            Err(_) => write!(out, "{index} full -")?,
        }
        for _ in 0..MOST {
            let Some(ItemId(taken)) = self.take() else {
                break;
            };
            write!(out, " {taken}")?;
        }
        writeln!(out)
    }

    fn arrange(&mut self, item: ItemId) -> Result<Arranged, Refusal> {
        let after = ordering::arrange(
            SIZES,
            self.stream,
            &mut self.index,
            &mut self.lengths,
            &mut self.bytes,
            item,
            b"",
            &mut self.output,
        );
        self.stream = after.stream;
        after.answer
    }

    fn take(&mut self) -> Option<ItemId> {
        let expected = self.stream.expected_index;
        let after = ordering::take(
            SIZES,
            self.stream,
            &mut self.index,
            &mut self.lengths,
            &mut self.bytes,
            &mut self.output,
        );
        self.stream = after.stream;
        let taken = after.answer.unwrap_or(None);
        taken.map(|_| expected)
    }
}
