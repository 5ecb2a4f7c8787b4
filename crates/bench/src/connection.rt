// One end of a link, and its calls, each between two marks where it is to be counted. Only the call of the link stands there: its
// counters are read before the first mark, and stored behind the second. So it is not the connection of `replay_calls`, whose
// calls store them themselves.
use crate::marks::{Counted, Marks};
use crate::script::{Call, Step};
use ends::{End, gate};
use packet::{DeliveryGuarantee, OrderingGuarantee};
use receiving::Answer;
use serial::PacketNumber;
use terms::{Refusal, Sizes};

// Its counters, its tables and rooms, for N x F to 32,768, as N 256 with F 128 or N 32 with F 1,024, and C to 8.
#[derive(Drop)]
pub struct Connection {
    sizes: Sizes,
    end: End,
    received: [u32; 33],
    number: [u32; 256],
    records: [u32; 256],
    payloads: [u8; 524288],
    slots: [u32; 8],
    entry: [u64; 8],
    header: [u64; 8],
    joined: [u8; 131072],
    index: [u32; 256],
    lengths: [u16; 256],
    held: [u8; 262144],
    output: [u8; 16401],
}

impl Connection {
    // A fresh end, as `link::new` makes it.
    pub fn new(sizes: Sizes) -> Connection {
        Connection {
            sizes,
            end: ends::fresh(),
            received: [sequence_buffer::NONE; 33],
            number: [sequence_buffer::NONE; 256],
            records: [0; 256],
            payloads: [0; 524288],
            slots: [sequence_buffer::NONE; 8],
            entry: [0; 8],
            header: [0; 8],
            joined: [0; 131072],
            index: [0; 256],
            lengths: [0; 256],
            held: [0; 262144],
            output: [0; 16401],
        }
    }

    // What a step has written. It stays a function of its own in the program, and so an end comes to a call from memory, as a
    // user's does.
    #[inline(never)]
    pub fn perform(&mut self, step: Step<'_>) -> &[u8] {
        let marks = step.marks;
        let count = match step.call {
            Call::Send(ordering) => self.send(marks, ordering, step.bytes),
            Call::Receive => self.receive(marks, step.bytes),
            Call::Take => self.take(marks),
            Call::Look(packet, part) => self.look(marks, packet, part),
        };
        let output: &[u8] = &self.output;
        output.get(..count).unwrap_or(output)
    }

    fn send(&mut self, marks: Marks, ordering: OrderingGuarantee, item: &[u8]) -> usize {
        let sizes = self.sizes;
        let end = self.end;
        marks.set(Counted::TheCall);
        let sent = link::send(
            sizes,
            end,
            &self.received,
            &mut self.number,
            &mut self.records,
            &mut self.payloads,
            &self.slots,
            &self.entry,
            &self.header,
            &self.joined,
            &self.index,
            &self.lengths,
            &self.held,
            DeliveryGuarantee::Reliable,
            ordering,
            0,
            item,
            &mut self.output,
        );
        marks.set(Counted::TheCall);
        self.end = sent.end;
        sent.answer.map_or(0, |written| written.length)
    }

    fn receive(&mut self, marks: Marks, datagram: &[u8]) -> usize {
        let sizes = self.sizes;
        let end = self.end;
        marks.set(Counted::TheCall);
        let heard = link::receive(
            sizes,
            end,
            &mut self.received,
            &mut self.number,
            &self.records,
            &self.payloads,
            &mut self.slots,
            &mut self.entry,
            &mut self.header,
            &mut self.joined,
            &mut self.index,
            &mut self.lengths,
            &mut self.held,
            datagram,
            &mut self.output,
        );
        marks.set(Counted::TheCall);
        self.end = heard.end;
        match heard.answer {
            Ok(Answer::Out(item)) => item.length,
            _ => 0,
        }
    }

    fn take(&mut self, marks: Marks) -> usize {
        let sizes = self.sizes;
        let end = self.end;
        marks.set(Counted::TheCall);
        let took = link::take(
            sizes,
            end,
            &self.received,
            &self.number,
            &self.records,
            &self.payloads,
            &self.slots,
            &self.entry,
            &self.header,
            &self.joined,
            &mut self.index,
            &mut self.lengths,
            &mut self.held,
            0,
            &mut self.output,
        );
        marks.set(Counted::TheCall);
        self.end = took.end;
        took.answer.ok().flatten().unwrap_or(0)
    }

    // The check of the state by itself, and a further fragment. Where the check alone is asked for, the step names a fragment
    // that there is not. A state that is not sound shows in the digest: all of the output counts as written.
    fn look(&mut self, marks: Marks, packet: PacketNumber, part: usize) -> usize {
        let gate = self.check(marks);
        let sizes = self.sizes;
        let end = self.end;
        marks.set(Counted::TheCall);
        let further = link::fragment(
            sizes,
            end,
            &self.received,
            &self.number,
            &self.records,
            &self.payloads,
            &self.slots,
            &self.entry,
            &self.header,
            &self.joined,
            &self.index,
            &self.lengths,
            &self.held,
            packet,
            part,
            &mut self.output,
        );
        marks.set(Counted::TheCall);
        match gate {
            Ok(()) => further.ok().flatten().unwrap_or(0),
            Err(_) => self.output.len(),
        }
    }

    fn check(&self, marks: Marks) -> Result<(), Refusal> {
        let sizes = self.sizes;
        let end = self.end;
        marks.set(Counted::TheCheck);
        let gate = gate::check(
            sizes,
            end,
            &self.received,
            &self.number,
            &self.records,
            &self.payloads,
            &self.slots,
            &self.entry,
            &self.header,
            &self.joined,
            &self.index,
            &self.lengths,
            &self.held,
            &self.output,
        );
        marks.set(Counted::TheCheck);
        gate
    }
}
