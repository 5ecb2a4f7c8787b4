// Tags 50 to 55: one ordered stream.
ghost use Rattle.std.specs.Prelude.{◌≡◌, false};

use ordering::{Arranged, OrderingStream};
use script::{Body, Field, Hex, Refused, Stop};
use serial::ItemId;
use std::fmt;
use terms::{Refusal, Sizes};

// The most bytes of a payload.
const F: usize = 1024;

// Nothing else of a link matters to a stream.
const SIZES: Sizes = Sizes {
    fragment_size: F,
    reassembly_slots: 1,
    max_fragments: 1,
    packets_in_flight: 1,
    version: 0,
};

// The most items that can be held, the bytes of them all, and the least output that a call takes.
const MOST: usize = 64;

const HELD: usize = MOST * F;

const OUTPUT: usize = 16 * F + 17;

// Whether the stream was made; the stream, the items that it holds in the columns that its calls are lent, and where one is
// written that is taken.
#[derive(Clone, Copy)]
pub struct Ordered {
    made: bool,
    stream: OrderingStream,
    index: [u32; MOST],
    lengths: [u16; MOST],
    bytes: [u8; HELD],
    output: [u8; OUTPUT],
}

// An item that comes or goes out. It is told by its index, and its payload where that isn't empty.
#[derive(Clone, Copy)]
struct Item<'a> {
    id: ItemId,
    payload: &'a [u8],
}

impl fmt::Display for Item<'_> {
    fn fmt<W: fmt::Write>(&self, f: &mut fmt::Formatter<W>) -> fmt::Result {
        let index = self.id.0;
        if self.payload.is_empty() {
            return write!(f, "{index}");
        }
        let payload = Hex(self.payload);
        write!(f, "{index}:{payload}")
    }
}

impl<'a> TryFrom<Body<'a>> for Item<'a> {
    type Error = Stop;

    fn try_from(mut body: Body<'a>) -> Result<Item<'a>, Stop> {
        let id = ItemId(body.number()?);
        let payload = body.0;
        Ok(Item { id, payload })
    }
}

// What a field asks of a stream.
#[derive(Clone, Copy)]
enum Operation<'a> {
    // An item comes, and what waited for it is taken.
    Come(Item<'a>),
    // An item comes.
    Arrange(Item<'a>),
    Take,
    Identify,
    // From an item on so many come in a row, without payload, and what waited for them is taken.
    Feed(ItemId, u16),
}

pub fn step(ordered: &mut Ordered, field: Field<'_>, out: &impl Print) -> Result<(), Stop> {
    if field.tag == 0x50 {
        field.body.end()?;
        ordered.begin();
        println!(out; "index answer out")?;
        return Ok(());
    }
    let operation = Operation::try_from(field)?;
    if !ordered.made {
        return script::missing(out);
    }
    ordered.perform(operation, out)
}

impl<'a> TryFrom<Field<'a>> for Operation<'a> {
    type Error = Stop;

    fn try_from(field: Field<'a>) -> Result<Operation<'a>, Stop> {
        let mut body = field.body;
        let operation = match field.tag {
            0x51 => return Ok(Operation::Come(Item::try_from(body)?)),
            0x52 => return Ok(Operation::Arrange(Item::try_from(body)?)),
            0x53 => Operation::Take,
            0x54 => Operation::Identify,
            0x55 => Operation::Feed(ItemId(body.number()?), body.number()?),
            _ => return Err(Stop::Bad),
        };
        body.end()?;
        Ok(operation)
    }
}

impl Ordered {
    // One that was never made.
    pub fn new() -> Ordered
        ensures { result.made ≡ false }
    {
        Ordered {
            made: false,
            stream: OrderingStream::new(),
            index: [0; MOST],
            lengths: [0; MOST],
            bytes: [0; HELD],
            output: [0; OUTPUT],
        }
    }

    // It holds nothing, so what its columns have does not count.
    fn begin(&mut self) {
        self.stream = OrderingStream::new();
        self.made = true;
    }

    fn perform(&mut self, operation: Operation<'_>, out: &impl Print) -> Result<(), Stop> {
        match operation {
            Operation::Come(item) => {
                let listed = self.come(item, out)?;
                let taken = self.take_all(out)?;
                end_list(listed || taken, out)
            }
            Operation::Arrange(item) => {
                print!(out; "arrange ")?;
                let listed = self.come(item, out)?;
                end_list(listed, out)
            }
            Operation::Take => {
                print!(out; "take")?;
                let taken = self.take_one(out)?;
                end_list(taken, out)
            }
            Operation::Identify => {
                let new = self.stream.new_item_identifier();
                self.stream = new.stream;
                let item = new.item.0;
                println!(out; "item {item}")?;
                Ok(())
            }
            Operation::Feed(first, count) => self.feed(first, count, out),
        }
    }

    // Tells what becomes of an item, and whether the line's list has begun: a refusal stands for it.
    fn come(&mut self, item: Item<'_>, out: &impl Print) -> Result<bool, Stop> {
        let index = item.id.0;
        match self.arrange(item) {
            Ok(Arranged::Out) => print!(out; "{index} out {item}")?,
            Ok(Arranged::Held(_)) => {
                print!(out; "{index} held")?;
                return Ok(false);
            }
            Ok(Arranged::Old) => {
                print!(out; "{index} old")?;
                return Ok(false);
            }
            Err(why) => print!(out; "{index} {}", Refused(why))?,
        }
        Ok(true)
    }

    // Takes until nothing comes, at most the items that can be held. Whether any came.
    fn take_all(&mut self, out: &impl Print) -> Result<bool, Stop> {
        for turn in 0..MOST {
            if !self.take_one(out)? {
                return Ok(0 < turn);
            }
        }
        Ok(true)
    }

    fn take_one(&mut self, out: &impl Print) -> Result<bool, Stop> {
        let id = self.stream.expected_index;
        let Some(length) = self.take() else {
            return Ok(false);
        };
        let payload = script::front(&self.output, length);
        let item = Item { id, payload };
        print!(out; " {item}")?;
        Ok(true)
    }

    fn feed(&mut self, first: ItemId, count: u16, out: &impl Print) -> Result<(), Stop> {
        let first = first.0;
        let mut all = 0usize;
        for i in 0..count {
            let id = ItemId(first.wrapping_add(i));
            let is_out = matches!(self.arrange(Item { id, payload: b"" }), Ok(Arranged::Out));
            let taken = (0..MOST).take_while(|_| self.take().is_some()).count();
            all = all.saturating_add(taken + usize::from(is_out));
        }
        println!(out; "feed {first} {count} out {all}")?;
        Ok(())
    }

    fn arrange(&mut self, item: Item<'_>) -> Result<Arranged, Refusal> {
        let after = ordering::arrange(
            SIZES,
            self.stream,
            &mut self.index,
            &mut self.lengths,
            &mut self.bytes,
            item.id,
            item.payload,
            &mut self.output,
        );
        self.stream = after.stream;
        after.answer
    }

    // The length of the next item, at the start of the output.
    fn take(&mut self) -> Option<usize> {
        let after = ordering::take(
            SIZES,
            self.stream,
            &mut self.index,
            &mut self.lengths,
            &mut self.bytes,
            &mut self.output,
        );
        self.stream = after.stream;
        after.answer.unwrap_or(None)
    }
}

// A list of nothing is `-`.
fn end_list(begun: bool, out: &impl Print) -> Result<(), Stop> {
    println!(out; "{}", if begun { "" } else { " -" })?;
    Ok(())
}
