// Tags 10 to 19: the sequence buffer and the comparison of numbers.
ghost use Rattle.std.specs.Prelude.{◌≤◌};

use script::{Body, Field, Stop};
use sequence_buffer::NONE;
use serial::PacketNumber;

// The most slots of a buffer.
const MOST: usize = 64;

// A buffer's slots, and the number after its newest. There is room for the most slots, and those behind its own have no number.
#[derive(Clone, Copy)]
pub struct Buffer {
    slots: [u32; MOST],
    size: usize,
    sequence_num: PacketNumber,
    ghost some: { 1 ≤ size },
    ghost few: { size ≤ 64 },
}

// What a field asks of a buffer.
#[derive(Clone, Copy)]
enum Operation {
    Insert(PacketNumber),
    Exists(PacketNumber),
    Remove(PacketNumber),
    Entries,
}

impl TryFrom<Field<'_>> for Operation {
    type Error = Stop;

    fn try_from(field: Field<'_>) -> Result<Operation, Stop> {
        let body = field.body;
        match field.tag {
            0x11 => Ok(Operation::Insert(PacketNumber(number(body)?))),
            0x12 => Ok(Operation::Exists(PacketNumber(number(body)?))),
            0x13 => Ok(Operation::Remove(PacketNumber(number(body)?))),
            0x14 => {
                body.end()?;
                Ok(Operation::Entries)
            }
            _ => Err(Stop::Bad),
        }
    }
}

pub fn step(buffer: &mut Option<Buffer>, field: Field<'_>, out: &impl Print) -> Result<(), Stop> {
    match field.tag {
        0x10 => {
            let size = number(field.body)?;
            *buffer = Some(Buffer::new(size)?);
            println!(out; "buffer new {size}")?;
            Ok(())
        }
        0x18 => compare("greater", serial::sequence_greater_than, field.body, out),
        0x19 => compare("less", serial::sequence_less_than, field.body, out),
        _ => {
            let operation = Operation::try_from(field)?;
            match buffer {
                Some(buffer) => buffer.perform(operation, out),
                None => script::missing(out),
            }
        }
    }
}

// A body of one number.
fn number(mut body: Body<'_>) -> Result<u16, Stop> {
    let number = body.number()?;
    body.end()?;
    Ok(number)
}

fn compare<F: Fn(u16, u16) -> bool>(
    word: &str,
    holds: F,
    mut body: Body<'_>,
    out: &impl Print,
) -> Result<(), Stop>
    requires { F.IsAlwaysCallable holds }
{
    let a = body.number()?;
    let b = body.number()?;
    body.end()?;
    let answer = yes_or_no(holds(a, b));
    println!(out; "{word} {a} {b} {answer}")?;
    Ok(())
}

fn yes_or_no(answer: bool) -> &'static str {
    if answer { "yes" } else { "no" }
}

impl Buffer {
    fn new(size: u16) -> Result<Buffer, Stop> {
        let size = size as usize;
        if size < 1 || MOST < size {
            return Err(Stop::Bad);
        }
        let mut slots = [0; MOST];
        let sequence_num = sequence_buffer::new(&mut slots);
        Ok(Buffer {
            slots,
            size,
            sequence_num,
        })
    }

    fn perform(&mut self, operation: Operation, out: &impl Print) -> Result<(), Stop> {
        match operation {
            Operation::Insert(number) => {
                let answer = if self.insert(number) { "ok" } else { "old" };
                self.tell("insert", number, answer, out)
            }
            Operation::Exists(number) => {
                let exists = sequence_buffer::exists(&self.slots[..self.size], number);
                self.tell("exists", number, yes_or_no(exists), out)
            }
            Operation::Remove(number) => {
                let removed = self.remove(number);
                self.tell("remove", number, yes_or_no(removed), out)
            }
            Operation::Entries => self.entries(out),
        }
    }

    // Whether the number is not too old.
    fn insert(&mut self, number: PacketNumber) -> bool {
        let slots = &mut self.slots[..];
        let after = sequence_buffer::insert(self.sequence_num, &mut slots[..self.size], number);
        self.sequence_num = after.sequence_num;
        after.insertion.is_some()
    }

    fn remove(&mut self, number: PacketNumber) -> bool {
        let slots = &mut self.slots[..];
        sequence_buffer::remove(&mut slots[..self.size], number)
    }

    fn tell(
        &self,
        word: &str,
        number: PacketNumber,
        answer: &str,
        out: &impl Print,
    ) -> Result<(), Stop> {
        let number = number.0;
        let newest = self.sequence_num.0;
        println!(out; "{word} {number} {answer} | {newest}")?;
        Ok(())
    }

    // Every number that exists, rising.
    fn entries(&self, out: &impl Print) -> Result<(), Stop> {
        let mut numbers = self.slots;
        numbers.sort_unstable();
        print!(out; "entries")?;
        if numbers[0] == NONE {
            print!(out; " -")?;
        }
        for number in numbers {
            if number != NONE {
                print!(out; " {number}")?;
            }
        }
        let newest = self.sequence_num.0;
        println!(out; " | {newest}")?;
        Ok(())
    }
}
