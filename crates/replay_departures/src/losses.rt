// Tags 74 and 79: the packets that an end gives up.
ghost use Rattle.std.specs.Prelude.{◌≡◌, false};

use crate::log::Log;
use flight::SentPacket;
use flight::lost::Dropped;
use replay_calls::Connection;
use script::{Hex, Record, Stop};
use serial::ItemId;

// The most packets that can be in flight.
const MOST: usize = 256;

// Tag 74: each is told, until nothing comes.
pub fn tell(connection: &mut Connection, out: &impl Print) -> Result<(), Stop> {
    for told in 0..=MOST {
        let Some(dropped) = give_up(connection) else {
            if told == 0 {
                print!(out; " -")?;
            }
            break;
        };
        let payload = Hex(script::front(&connection.output, dropped.count));
        let record = Record(dropped.sent);
        print!(out; " {payload}{record}")?;
    }
    Ok(())
}

pub fn give_up(connection: &mut Connection) -> Option<Dropped> {
    connection.dropped().ok().flatten()
}

// All are given up before any is sent again, since a new packet may take the number of one. So they wait: what was sent, and at
// the same place its payload. There is one for a whole run.
#[derive(Clone, Copy)]
pub struct Losses {
    sent: [SentPacket; MOST],
    payloads: Log,
}

impl Losses {
    pub fn new() -> Losses
        ensures { (result.payloads.count ≡ 0) × (result.payloads.full ≡ false) }
    {
        let none = SentPacket {
            ordering: 0,
            stream: 0,
            item: ItemId(0),
        };
        Losses {
            sent: [none; MOST],
            payloads: Log::new(),
        }
    }

    fn collect(&mut self, connection: &mut Connection) {
        self.payloads.clear();
        for packet in &mut self.sent {
            let Some(dropped) = give_up(connection) else {
                break;
            };
            *packet = dropped.sent;
            self.payloads
                .push(script::front(&connection.output, dropped.count));
        }
    }
}

// Tag 79: each is sent again.
pub fn resend(
    connection: &mut Connection,
    log: &mut Log,
    losses: &mut Losses,
    out: &impl Print,
) -> Result<(), Stop> {
    losses.collect(connection);
    if losses.payloads.get(0).is_none() {
        print!(out; " -")?;
    }
    for (place, sent) in losses.sent.iter().enumerate() {
        let Some(payload) = losses.payloads.get(place) else {
            break;
        };
        let answer = connection.resend(*sent, payload);
        crate::written(connection, log, answer, out)?;
    }
    Ok(())
}
