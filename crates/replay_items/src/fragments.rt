// Tags 40, 41 and 44: fragments put together to messages, and payloads split.
ghost use Rattle.std.specs.Prelude.{◌≡◌, false};

use reassembly::effects::Message;
use reassembly_plan::plan::Fragment;
use reassembly_plan::words::AckHeader;
use script::{Bits, Body, Field, Hex, Refused, Stop};
use serial::PacketNumber;
use terms::{Refusal, Sizes};

// The most bytes of a fragment, and the most messages that are put together at a time.
const MOST_BYTES: usize = 256;

const MOST_SLOTS: usize = 64;

// The most fragments of a message, the bytes of so many messages, and the least output that a call takes.
const FRAGMENTS: usize = 16;

const JOINED: usize = MOST_SLOTS * FRAGMENTS * MOST_BYTES;

const OUTPUT: usize = 16 * MOST_BYTES + 17;

// Whether there are sizes for messages; those that are put together in the columns that the calls are lent, and where one is
// written that is whole.
#[derive(Clone, Copy)]
pub struct Messages {
    made: bool,
    sizes: Sizes,
    sequence_num: PacketNumber,
    slots: [u32; MOST_SLOTS],
    entry: [u64; MOST_SLOTS],
    header: [u64; MOST_SLOTS],
    bytes: [u8; JOINED],
    output: [u8; OUTPUT],
}

pub fn step(messages: &mut Messages, field: Field<'_>, out: &impl Print) -> Result<(), Stop> {
    match field.tag {
        0x40 => begin(messages, field.body, out),
        0x41 => {
            let mut body = field.body;
            let fragment = fragment(&mut body)?;
            if !messages.made {
                return script::missing(out);
            }
            messages.handle(fragment, body.0, out)
        }
        0x44 => split(field.body, out),
        _ => Err(Stop::Bad),
    }
}

fn begin(messages: &mut Messages, mut body: Body<'_>, out: &impl Print) -> Result<(), Stop> {
    let f = body.number()?;
    let c = body.number()?;
    body.end()?;
    messages.begin(f as usize, c as usize)?;
    println!(out; "fragments new {f} {c}")?;
    Ok(())
}

// A fragment has the acknowledgment header where its id is 0.
fn fragment(body: &mut Body<'_>) -> Result<Fragment, Stop> {
    let number = PacketNumber(body.number()?);
    let id = body.byte()?;
    let count = body.byte()?;
    let header = if id == 0 { header(body)? } else { NO_HEADER };
    Ok(Fragment {
        number,
        id,
        count,
        header,
    })
}

const NO_HEADER: AckHeader = AckHeader {
    number: PacketNumber(0),
    acked: PacketNumber(0),
    field: 0,
};

fn header(body: &mut Body<'_>) -> Result<AckHeader, Stop> {
    Ok(AckHeader {
        number: PacketNumber(body.number()?),
        acked: PacketNumber(body.number()?),
        field: body.long()?,
    })
}

// Nothing is in flight here, and no datagram has a version word.
fn sizes(fragment_size: usize, reassembly_slots: usize, max_fragments: usize) -> Sizes {
    Sizes {
        fragment_size,
        reassembly_slots,
        max_fragments,
        packets_in_flight: 1,
        version: 0,
    }
}

impl Messages {
    // Some that were never made.
    pub fn new() -> Messages
        ensures { result.made ≡ false }
    {
        Messages {
            made: false,
            sizes: sizes(0, 0, 0),
            sequence_num: PacketNumber(0),
            slots: [0; MOST_SLOTS],
            entry: [0; MOST_SLOTS],
            header: [0; MOST_SLOTS],
            bytes: [0; JOINED],
            output: [0; OUTPUT],
        }
    }

    // None has a fragment yet, so what the other columns hold does not count.
    fn begin(&mut self, f: usize, c: usize) -> Result<(), Stop> {
        if f < 1 || MOST_BYTES < f || c < 1 || MOST_SLOTS < c {
            return Err(Stop::Bad);
        }
        self.sizes = sizes(f, c, FRAGMENTS);
        self.sequence_num = sequence_buffer::new(&mut self.slots);
        self.made = true;
        Ok(())
    }

    fn handle(&mut self, fragment: Fragment, payload: &[u8], out: &impl Print) -> Result<(), Stop> {
        let number = fragment.number.0;
        let id = fragment.id;
        let count = fragment.count;
        print!(out; "fragment {number} {id} {count}: ")?;
        match self.whole(fragment, payload) {
            Ok(None) => println!(out; "none")?,
            Ok(Some(message)) => self.tell(message, out)?,
            Err(why) => println!(out; "{}", Refused(why))?,
        }
        Ok(())
    }

    // The message that a fragment completes.
    fn whole(&mut self, fragment: Fragment, payload: &[u8]) -> Result<Option<Message>, Refusal> {
        let after = reassembly::handle_fragment(
            self.sizes,
            self.sequence_num,
            &mut self.slots,
            &mut self.entry,
            &mut self.header,
            &mut self.bytes,
            fragment,
            payload,
            &mut self.output,
        );
        self.sequence_num = after.sequence_num;
        after.answer
    }

    fn tell(&self, message: Message, out: &impl Print) -> Result<(), Stop> {
        let payload = Hex(script::front(&self.output, message.length));
        let number = message.header.number.0;
        let acked = message.header.acked.0;
        let field = Bits(message.header.field);
        println!(out; "message {payload} ack {number} {acked} {field}")?;
        Ok(())
    }
}

fn split(mut body: Body<'_>, out: &impl Print) -> Result<(), Stop> {
    let f = body.number()?;
    let m = body.byte()?;
    let length = body.long()?;
    body.end()?;
    print!(out; "split {f} {m} {length}:")?;
    let f = f as usize;
    let length = length as usize;
    match splitter::check(sizes(f, 1, m as usize), length) {
        Ok(count) => list(count, f, length, out)?,
        Err(why) => print!(out; " {}", Refused(why))?,
    }
    println!(out)?;
    Ok(())
}

// The lengths of the pieces: F for each but the last, which has the rest.
fn list(count: usize, f: usize, length: usize, out: &impl Print) -> Result<(), Stop> {
    if count == 0 {
        print!(out; " -")?;
    }
    let mut left = length;
    for _ in 0..count {
        let piece = left.min(f);
        print!(out; " {piece}")?;
        left -= piece;
    }
    Ok(())
}
