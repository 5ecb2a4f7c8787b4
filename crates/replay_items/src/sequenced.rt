// Tags 58, 59 and 5A: one sequencing stream.
use script::{Field, Stop};
use sequencing::{Sequenced, SequencingStream};
use serial::ItemId;

// What a field asks of a stream.
#[derive(Clone, Copy)]
enum Operation {
    Arrange(ItemId),
    Identify,
}

pub fn step(
    made: &mut Option<SequencingStream>,
    field: Field<'_>,
    out: &impl Print,
) -> Result<(), Stop> {
    if field.tag == 0x58 {
        field.body.end()?;
        *made = Some(SequencingStream::new());
        println!(out; "sequencing new")?;
        return Ok(());
    }
    let operation = Operation::try_from(field)?;
    let Some(stream) = *made else {
        return script::missing(out);
    };
    *made = Some(perform(stream, operation, out)?);
    Ok(())
}

impl TryFrom<Field<'_>> for Operation {
    type Error = Stop;

    fn try_from(field: Field<'_>) -> Result<Operation, Stop> {
        let mut body = field.body;
        let operation = match field.tag {
            0x59 => Operation::Arrange(ItemId(body.number()?)),
            0x5A => Operation::Identify,
            _ => return Err(Stop::Bad),
        };
        body.end()?;
        Ok(operation)
    }
}

// Answers the stream after it.
fn perform(
    stream: SequencingStream,
    operation: Operation,
    out: &impl Print,
) -> Result<SequencingStream, Stop> {
    match operation {
        Operation::Arrange(item) => {
            let after = sequencing::arrange(stream, item);
            let index = item.0;
            let answer = word(after.answer);
            println!(out; "sequence {index} {answer}")?;
            Ok(after.stream)
        }
        Operation::Identify => {
            let new = stream.new_item_identifier();
            let item = new.item.0;
            println!(out; "item {item}")?;
            Ok(new.stream)
        }
    }
}

fn word(answer: Sequenced) -> &'static str {
    match answer {
        Sequenced::Out => "out",
        Sequenced::Dropped => "dropped",
    }
}
