// Tags 20 to 25: the acknowledgments of one end, with room for 256 packets in flight.
ghost use Rattle.std.specs.Prelude.{◌≡◌, false};

use acknowledgment::Acknowledgment;
use flight::SentPacket;
use flight::lost::Dropped;
use script::{Bits, Body, Field, Hex, Record, Refused, Stop};
use serial::{ItemId, PacketNumber};
use terms::{Refusal, Sizes};

// The most bytes of a payload, and the most packets in flight.
const F: usize = 64;

const N: usize = 256;

const SIZES: Sizes = Sizes {
    fragment_size: F,
    reassembly_slots: 1,
    max_fragments: 16,
    packets_in_flight: N,
    version: 0,
};

// There is room for payloads of 16 fragments, and the least output that a call takes.
const PAYLOADS: usize = 16 * F * N;

const OUTPUT: usize = 16 * F + 17;

// What is sent where nothing is ordered.
const UNORDERED: SentPacket = SentPacket {
    ordering: 0,
    stream: 255,
    item: ItemId(0),
};

// Whether the end was made; its counters, the packets received and those in flight in the columns that the calls are lent, and
// where a payload is written that was given up.
#[derive(Clone, Copy)]
pub struct Ack {
    made: bool,
    counters: Acknowledgment,
    received: [u32; 33],
    number: [u32; N],
    records: [u32; N],
    payloads: [u8; PAYLOADS],
    output: [u8; OUTPUT],
}

// A packet that comes.
#[derive(Clone, Copy)]
struct Heard {
    packet: PacketNumber,
    acked: PacketNumber,
    field: u32,
}

// What a field asks of an end.
#[derive(Clone, Copy)]
enum Operation<'a> {
    Incoming(Heard),
    Outgoing(SentPacket, &'a [u8]),
    Dropped,
    State,
    // So many packets are sent, and for each comes one that acknowledges it.
    Cycle(u16, PacketNumber),
}

pub fn step(end: &mut Ack, field: Field<'_>, out: &impl Print) -> Result<(), Stop> {
    if field.tag == 0x20 {
        field.body.end()?;
        end.begin();
        print!(out; "ack new")?;
        return end.tell_state(out);
    }
    let operation = Operation::try_from(field)?;
    if !end.made {
        return script::missing(out);
    }
    end.perform(operation, out)
}

impl<'a> TryFrom<Field<'a>> for Operation<'a> {
    type Error = Stop;

    fn try_from(field: Field<'a>) -> Result<Operation<'a>, Stop> {
        let mut body = field.body;
        let operation = match field.tag {
            0x21 => Operation::Incoming(Heard {
                packet: PacketNumber(body.number()?),
                acked: PacketNumber(body.number()?),
                field: body.long()?,
            }),
            0x22 => return outgoing(body),
            0x23 => Operation::Dropped,
            0x24 => Operation::State,
            0x25 => Operation::Cycle(body.number()?, PacketNumber(body.number()?)),
            _ => return Err(Stop::Bad),
        };
        body.end()?;
        Ok(operation)
    }
}

// An ordering, with the stream and the item a byte 0 or 1, and a payload.
fn outgoing(mut body: Body<'_>) -> Result<Operation<'_>, Stop> {
    let ordering = body.below(3)?;
    let stream = body.stream()?;
    body.below(2)?;
    let item = ItemId(body.number()?);
    let sent = SentPacket {
        ordering,
        stream,
        item,
    };
    Ok(Operation::Outgoing(sent, body.0))
}

impl Ack {
    // One that was never made.
    pub fn new() -> Ack
        ensures { result.made ≡ false }
    {
        let mut received = [0; 33];
        let mut number = [0; N];
        let counters = acknowledgment::new(&mut received, &mut number);
        Ack {
            made: false,
            counters,
            received,
            number,
            records: [0; N],
            payloads: [0; PAYLOADS],
            output: [0; OUTPUT],
        }
    }

    // It is fresh, with nothing in flight. So no payload counts, and the bytes of those that were stay as they are.
    fn begin(&mut self) {
        self.counters = acknowledgment::new(&mut self.received, &mut self.number);
        self.made = true;
    }

    fn perform(&mut self, operation: Operation<'_>, out: &impl Print) -> Result<(), Stop> {
        match operation {
            Operation::Incoming(heard) => {
                let packet = heard.packet.0;
                let acked = heard.acked.0;
                let field = Bits(heard.field);
                print!(out; "ack incoming {packet} {acked} {field}")?;
                self.incoming(heard, out)?;
            }
            Operation::Outgoing(sent, payload) => {
                let local = self.counters.local_sequence_num().0;
                print!(out; "ack outgoing {local}")?;
                self.outgoing(sent, payload, out)?;
            }
            Operation::Dropped => {
                print!(out; "ack dropped")?;
                self.give_up(out)?;
            }
            Operation::State => print!(out; "ack state")?,
            Operation::Cycle(count, packet) => self.cycle(count, packet, out)?,
        }
        self.tell_state(out)
    }

    fn incoming(&mut self, heard: Heard, out: &impl Print) -> Result<(), Stop> {
        let answer = acknowledgment::process_incoming(
            SIZES,
            self.counters,
            &mut self.received,
            &mut self.number,
            &self.records,
            &self.payloads,
            heard.packet,
            heard.acked,
            heard.field,
        );
        self.counters = or_refused(answer, self.counters, out)?;
        Ok(())
    }

    fn outgoing(&mut self, sent: SentPacket, payload: &[u8], out: &impl Print) -> Result<(), Stop> {
        let answer = acknowledgment::process_outgoing(
            SIZES,
            self.counters,
            &self.received,
            &mut self.number,
            &mut self.records,
            &mut self.payloads,
            sent,
            payload,
        );
        self.counters = or_refused(answer, self.counters, out)?;
        Ok(())
    }

    fn cycle(&mut self, count: u16, packet: PacketNumber, out: &impl Print) -> Result<(), Stop> {
        let number = packet.0;
        print!(out; "ack cycle {count} {number}")?;
        for _ in 0..count {
            let acked = self.counters.local_sequence_num();
            self.outgoing(UNORDERED, b"", out)?;
            let heard = Heard {
                packet,
                acked,
                field: 0,
            };
            self.incoming(heard, out)?;
        }
        Ok(())
    }

    // Until nothing comes, after at most the packets that can be in flight. A list in which none came is `-`.
    fn give_up(&mut self, out: &impl Print) -> Result<(), Stop> {
        for turn in 0..=N {
            match self.drop_one() {
                Ok(Some(dropped)) => self.tell_dropped(dropped, out)?,
                Ok(None) => {
                    if turn == 0 {
                        print!(out; " -")?;
                    }
                    return Ok(());
                }
                Err(why) => return tell_refused(why, out),
            }
        }
        Ok(())
    }

    fn tell_dropped(&self, dropped: Dropped, out: &impl Print) -> Result<(), Stop> {
        let payload = Hex(script::front(&self.output, dropped.count));
        let record = Record(dropped.sent);
        print!(out; " {payload}{record}")?;
        Ok(())
    }

    fn drop_one(&mut self) -> Result<Option<Dropped>, Refusal> {
        acknowledgment::dropped_packets(
            SIZES,
            self.counters,
            &self.received,
            &mut self.number,
            &self.records,
            &self.payloads,
            &mut self.output,
        )
    }

    // Next packet number, reported newest, field, how many in flight.
    fn tell_state(&self, out: &impl Print) -> Result<(), Stop> {
        let counters = self.counters;
        let field = acknowledgment::ack_bitfield(SIZES, counters, &self.received);
        let field = Bits(or_refused(field, 0, out)?);
        let count = acknowledgment::packets_in_flight(SIZES, &self.number, &self.records);
        let count = or_refused(count, 0, out)?;
        let local = counters.local_sequence_num().0;
        let newest = counters.remote_sequence_num().0;
        println!(out; " | {local} {newest} {field} {count}")?;
        Ok(())
    }
}

// Where a call is refused that is told, and what is given stands for its answer.
fn or_refused<T: Drop>(
    answer: Result<T, Refusal>,
    instead: T,
    out: &impl Print,
) -> Result<T, Stop> {
    match answer {
        Ok(value) => Ok(value),
        Err(why) => {
            tell_refused(why, out)?;
            Ok(instead)
        }
    }
}

fn tell_refused(why: Refusal, out: &impl Print) -> Result<(), Stop> {
    let refused = Refused(why);
    print!(out; " {refused}")?;
    Ok(())
}
