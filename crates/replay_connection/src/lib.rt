// Tags 70 to 7A for end 0, 80 to 8A for end 1: two connections, and the line between them. Only the program `replay` uses this
// crate.
#![tactic(auto)]

mod operation;

use operation::Operation;
use replay_calls::Connection;
use replay_departures::log::Log;
use replay_departures::losses::{self, Losses};
use script::{Body, Field, Refused, Stop};

#[derive(Clone, Copy)]
pub struct Ends {
    first: Side,
    second: Side,
    losses: Losses,
}

// One end: its number, whether its connection was made, which is there from the start, and the datagrams that it has sent.
#[derive(Clone, Copy)]
struct Side {
    number: u8,
    made: bool,
    connection: Connection,
    log: Log,
}

impl Ends {
    pub fn new() -> Ends {
        Ends {
            first: Side::new(0),
            second: Side::new(1),
            losses: Losses::new(),
        }
    }

    pub fn step(&mut self, field: Field<'_>, out: &impl Print) -> Result<(), Stop> {
        match field.tag {
            0x70 => self.first.make(field.body, out),
            0x80 => self.second.make(field.body, out),
            0x78 => self.second.hear(&self.first, field.body, out),
            0x88 => self.first.hear(&self.second, field.body, out),
            0x71..=0x7F => self.first.step(field, &mut self.losses, out),
            0x81..=0x8F => self.second.step(field, &mut self.losses, out),
            _ => Err(Stop::Bad),
        }
    }
}

impl Side {
    fn new(number: u8) -> Side {
        Side {
            number,
            made: false,
            connection: Connection::new(),
            log: Log::new(),
        }
    }

    // Its connection is made, unless its sizes are refused.
    fn make(&mut self, body: Body<'_>, out: &impl Print) -> Result<(), Stop> {
        let sizes = operation::sizes(body)?;
        let end = self.number;
        print!(out; "end{end} new")?;
        self.log.clear();
        let begun = self.connection.begin(sizes);
        self.made = begun.is_ok();
        if let Err(why) = begun {
            let refused = Refused(why);
            print!(out; " {refused}")?;
        }
        self.finish(out)
    }

    // A datagram of the other end's log comes over the line.
    fn hear(&mut self, other: &Side, body: Body<'_>, out: &impl Print) -> Result<(), Stop> {
        let mut body = body;
        let place = body.long()?;
        body.end()?;
        if !self.made {
            return script::missing(out);
        }
        let Some(datagram) = other.log.get(place as usize) else {
            return script::missing(out);
        };
        let from = other.number;
        let to = self.number;
        print!(out; "line {from}>{to} {place}")?;
        replay_arrivals::receive(&mut self.connection, datagram, out)?;
        self.finish(out)
    }

    fn step(
        &mut self,
        field: Field<'_>,
        losses: &mut Losses,
        out: &impl Print,
    ) -> Result<(), Stop> {
        let operation = Operation::read(field)?;
        if !self.made {
            return script::missing(out);
        }
        let end = self.number;
        let word = operation.word();
        print!(out; "end{end} {word}")?;
        perform(operation, &mut self.connection, &mut self.log, losses, out)?;
        self.finish(out)
    }

    // A line ends with how many packets are in flight. A log without room ends the run.
    fn finish(&self, out: &impl Print) -> Result<(), Stop> {
        let count = in_flight(&self.connection);
        println!(out; " | {count}")?;
        if self.log.is_full() {
            return Err(Stop::Bad);
        }
        Ok(())
    }
}

fn in_flight(connection: &Connection) -> usize {
    connection
        .report()
        .map_or(0, |status| status.packets_in_flight)
}

fn perform(
    operation: Operation<'_>,
    connection: &mut Connection,
    log: &mut Log,
    losses: &mut Losses,
    out: &impl Print,
) -> Result<(), Stop> {
    match operation {
        Operation::Receive(datagram) => replay_arrivals::receive(connection, datagram, out),
        Operation::Send(item) => replay_departures::send(connection, log, item, out),
        Operation::Dropped => losses::tell(connection, out),
        Operation::Heartbeat => replay_departures::heartbeat(log, out),
        Operation::Cycle(items) => replay_departures::cycle(connection, items, out),
        Operation::Feed(packets) => replay_arrivals::feed(connection, packets, out),
        Operation::Resend => losses::resend(connection, log, losses, out),
        Operation::State => Ok(()),
    }
}
