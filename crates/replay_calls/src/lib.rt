// One end of a link, with all that it lends to the calls of the crate `link`. Only the parts of the program `replay` use this
// crate.
#![tactic(auto)]

ghost use Rattle.std.specs.Prelude.{◌≡◌};
ghost use Rattle.ends.specs.State.{fresh_end};
ghost use Rattle.link.specs.Calls.{new_of, filled};

use ends::End;
use flight::SentPacket;
use flight::lost::Dropped;
use link::status::Status;
use packet::{DeliveryGuarantee, OrderingGuarantee};
use receiving::Answer;
use sending::Written;
use serial::PacketNumber;
use terms::{Refusal, Sizes};

// The counters of an end, its tables and rooms, as long as a link asks for, and what its last call wrote. It takes some 875 KB, so
// it is made once, where it stays, and begun as often as need be.
#[derive(Clone, Copy)]
pub struct Connection {
    sizes: Sizes,
    pub end: End,
    received: [u32; 33],
    number: [u32; 256],
    records: [u32; 256],
    payloads: [u8; 524288],
    slots: [u32; 64],
    entry: [u64; 64],
    header: [u64; 64],
    joined: [u8; 262144],
    index: [u32; 256],
    lengths: [u16; 256],
    held: [u8; 65536],
    pub output: [u8; 16401],
}

// No end has these: each size is at least 1.
const NO_SIZES: Sizes = Sizes {
    fragment_size: 0,
    reassembly_slots: 0,
    max_fragments: 0,
    packets_in_flight: 0,
    version: 0,
};

impl Connection {
    // One that was never begun: it has no sizes, and each call is refused for that.
    pub fn new() -> Connection
        ensures { (result.sizes.fragment_size ≡ 0) × (result.end ≡ fresh_end) }
    {
        Connection {
            sizes: NO_SIZES,
            end: ends::fresh(),
            received: [0; 33],
            number: [0; 256],
            records: [0; 256],
            payloads: [0; 524288],
            slots: [0; 64],
            entry: [0; 64],
            header: [0; 64],
            joined: [0; 262144],
            index: [0; 256],
            lengths: [0; 256],
            held: [0; 65536],
            output: [0; 16401],
        }
    }

    // A fresh end of these sizes, with nothing in flight and nothing held. So its other tables and its rooms count for nothing,
    // and stay as they are.
    pub fn begin(&mut self, sizes: Sizes) -> Result<(), Refusal>
        ensures sizes_after { self.new.sizes ≡ sizes }
        ensures end_after { self.new.end ≡ fresh_end }
        ensures answer { result ≡ new_of sizes self.old.received self.old.number self.old.records self.old.payloads self.old.slots self.old.entry self.old.header self.old.joined self.old.index self.old.lengths self.old.held self.old.output }
        ensures filled_after { (self.new.received ≡ filled result self.old.received) × (self.new.number ≡ filled result self.old.number) × (self.new.slots ≡ filled result self.old.slots) }
        ensures tables_stay { (self.new.records ≡ self.old.records) × (self.new.entry ≡ self.old.entry) × (self.new.header ≡ self.old.header) × (self.new.index ≡ self.old.index) × (self.new.lengths ≡ self.old.lengths) }
        ensures rooms_stay { (self.new.payloads ≡ self.old.payloads) × (self.new.joined ≡ self.old.joined) × (self.new.held ≡ self.old.held) × (self.new.output ≡ self.old.output) }
    {
        self.sizes = sizes;
        let begun = link::new(
            self.sizes,
            &mut self.received,
            &mut self.number,
            &self.records,
            &self.payloads,
            &mut self.slots,
            &self.entry,
            &self.header,
            &self.joined,
            &self.index,
            &self.lengths,
            &self.held,
            &self.output,
        );
        self.end = begun.end;
        begun.answer
    }

    pub fn receive(&mut self, datagram: &[u8]) -> Result<Answer, Refusal> {
        let after = link::receive(
            self.sizes,
            self.end,
            &mut self.received,
            &mut self.number,
            &self.records,
            &self.payloads,
            &mut self.slots,
            &mut self.entry,
            &mut self.header,
            &mut self.joined,
            &mut self.index,
            &mut self.lengths,
            &mut self.held,
            datagram,
            &mut self.output,
        );
        self.end = after.end;
        after.answer
    }

    pub fn take(&mut self, stream: u8) -> Result<Option<usize>, Refusal> {
        let after = link::take(
            self.sizes,
            self.end,
            &self.received,
            &self.number,
            &self.records,
            &self.payloads,
            &self.slots,
            &self.entry,
            &self.header,
            &self.joined,
            &mut self.index,
            &mut self.lengths,
            &mut self.held,
            stream,
            &mut self.output,
        );
        self.end = after.end;
        after.answer
    }

    pub fn send(
        &mut self,
        delivery: DeliveryGuarantee,
        ordering: OrderingGuarantee,
        stream: u8,
        payload: &[u8],
    ) -> Result<Written, Refusal> {
        let after = link::send(
            self.sizes,
            self.end,
            &self.received,
            &mut self.number,
            &mut self.records,
            &mut self.payloads,
            &self.slots,
            &self.entry,
            &self.header,
            &self.joined,
            &self.index,
            &self.lengths,
            &self.held,
            delivery,
            ordering,
            stream,
            payload,
            &mut self.output,
        );
        self.end = after.end;
        after.answer
    }

    pub fn resend(&mut self, sent: SentPacket, payload: &[u8]) -> Result<Written, Refusal> {
        let after = link::resend(
            self.sizes,
            self.end,
            &self.received,
            &mut self.number,
            &mut self.records,
            &mut self.payloads,
            &self.slots,
            &self.entry,
            &self.header,
            &self.joined,
            &self.index,
            &self.lengths,
            &self.held,
            sent,
            payload,
            &mut self.output,
        );
        self.end = after.end;
        after.answer
    }

    pub fn fragment(&mut self, packet: PacketNumber, j: usize) -> Result<Option<usize>, Refusal> {
        link::fragment(
            self.sizes,
            self.end,
            &self.received,
            &self.number,
            &self.records,
            &self.payloads,
            &self.slots,
            &self.entry,
            &self.header,
            &self.joined,
            &self.index,
            &self.lengths,
            &self.held,
            packet,
            j,
            &mut self.output,
        )
    }

    pub fn dropped(&mut self) -> Result<Option<Dropped>, Refusal> {
        link::dropped(
            self.sizes,
            self.end,
            &self.received,
            &mut self.number,
            &self.records,
            &self.payloads,
            &self.slots,
            &self.entry,
            &self.header,
            &self.joined,
            &self.index,
            &self.lengths,
            &self.held,
            &mut self.output,
        )
    }

    pub fn report(&self) -> Result<Status, Refusal> {
        link::report(
            self.sizes,
            self.end,
            &self.received,
            &self.number,
            &self.records,
            &self.payloads,
            &self.slots,
            &self.entry,
            &self.header,
            &self.joined,
            &self.index,
            &self.lengths,
            &self.held,
            &self.output,
        )
    }
}
