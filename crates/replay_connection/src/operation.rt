// What a field asks of an end.
use packet::{DeliveryGuarantee, OrderingGuarantee};
use replay_arrivals::Packets;
use replay_departures::{Items, Outgoing, VERSION};
use script::{Body, Field, Stop};
use terms::Sizes;

// Of an end that is made.
#[derive(Clone, Copy)]
pub enum Operation<'a> {
    Receive(&'a [u8]),
    Send(Outgoing<'a>),
    Dropped,
    Heartbeat,
    Cycle(Items),
    Feed(Packets),
    Resend,
    State,
}

impl<'a> Operation<'a> {
    // A tag's last digit says which.
    pub fn read(field: Field<'a>) -> Result<Operation<'a>, Stop> {
        let mut body = field.body;
        let operation = match field.tag % 16 {
            1 => return Ok(Operation::Receive(body.0)),
            2 => return outgoing(body),
            4 => Operation::Dropped,
            5 => Operation::Heartbeat,
            6 => Operation::Cycle(items(&mut body)?),
            7 => Operation::Feed(packets(&mut body)?),
            9 => Operation::Resend,
            10 => Operation::State,
            _ => return Err(Stop::Bad),
        };
        body.end()?;
        Ok(operation)
    }

    pub fn word(self) -> &'static str {
        match self {
            Operation::Receive(_) => "receive",
            Operation::Send(_) => "send",
            Operation::Dropped => "dropped",
            Operation::Heartbeat => "heartbeat",
            Operation::Cycle(_) => "cycle",
            Operation::Feed(_) => "feed",
            Operation::Resend => "resend",
            Operation::State => "state",
        }
    }
}

fn outgoing(body: Body<'_>) -> Result<Operation<'_>, Stop> {
    let mut body = body;
    Ok(Operation::Send(Outgoing {
        delivery: DeliveryGuarantee::try_from(body.byte()?).map_err(|_| Stop::Bad)?,
        ordering: ordering(&mut body)?,
        stream: body.stream()?,
        payload: body.0,
    }))
}

fn ordering(body: &mut Body<'_>) -> Result<OrderingGuarantee, Stop> {
    OrderingGuarantee::try_from(body.byte()?).map_err(|_| Stop::Bad)
}

fn items(body: &mut Body<'_>) -> Result<Items, Stop> {
    Ok(Items {
        count: body.number()?,
        ordering: ordering(body)?,
        stream: body.stream()?,
        number: body.number()?,
    })
}

fn packets(body: &mut Body<'_>) -> Result<Packets, Stop> {
    Ok(Packets {
        count: body.number()?,
        number: body.number()?,
        acked: body.number()?,
        field: body.long()?,
        index: body.number()?,
        stream: body.byte()?,
    })
}

// The sizes of an end that is to be made. Where payloads are twice as long it has half as many packets in flight, since their
// payloads lie in 524,288 bytes.
pub fn sizes(body: Body<'_>) -> Result<Sizes, Stop> {
    let mut body = body;
    let fragment_size = body.number()? as usize;
    let sizes = Sizes {
        fragment_size,
        reassembly_slots: body.number()? as usize,
        max_fragments: body.byte()? as usize,
        packets_in_flight: if fragment_size > 128 { 128 } else { 256 },
        version: VERSION,
    };
    body.end()?;
    Ok(sizes)
}
