// A packet, as it was sent in one datagram: "after every check, `process_incoming`, then arranging". Read `accept` first: the
// plan is judged by `receiving_plan`, then carried out. It leaves out reading the headers and what is over F, which is
// `receiving`, and fragments, which are `receiving_fragments`.
#![tactic(auto)]

ghost use Rattle.std.specs.Prelude.{◌≡◌, ◌≤◌, length, Ok, Err};
ghost use Rattle.received.specs.Record.{slot_count};
ghost use Rattle.flight_home.specs.AtHome.{KnownHome};
ghost use Rattle.acks.specs.State.{table_of};
ghost use Rattle.arranging_plan.specs.Ordered.{lending_all, RoomForAll, LeavesAll};
ghost use Rattle.receiving_plan.specs.Plan.{plan_of, item_of};
ghost use Rattle.receiving_plan.specs.Heard.{Hearing, acks_by};
ghost use Rattle.receiving_packets.specs.Packets.{PacketReady, sequenced_by, ordered_by, handed, SequencedReady, OrderedReady, Accepts, Performs};

use acks::Acknowledgment;
use arranging::ordered::OrderingStreams;
use arranging::sequenced::SequencingStreams;
use ends::End;
use packet::{AckedPacketHeader, ArrangingHeader, DeliveryGuarantee, Headers};
use receiving_plan::{Answer, Item, Plan};
use terms::{Refusal, Sizes};

#[derive(Clone, Copy)]
pub struct Received {
    pub end: End,
    pub answer: Result<Answer, Refusal>,
}

// Requires an end that the gate lets through, with packets in flight at home where they are said to be, and a payload to F.
pub fn accept(
    sizes: Sizes,
    end: End,
    received: &mut [u32],
    number: &mut [u32],
    index: &mut [u32],
    lengths: &mut [u16],
    held: &mut [u8],
    headers: Headers,
    payload: &[u8],
    output: &mut [u8],
    home: bool,
) -> Received
    requires { PacketReady sizes end received.old number.old index.old lengths.old held.old payload.now output.old × KnownHome home (table_of sizes number.old) }
    ensures { Accepts sizes headers payload.now end received.old number.old index.old lengths.old held.old output.old result received.new number.new index.new lengths.new held.new output.new }
{
    let plan = match receiving_plan::judge(end.ordering, end.sequencing, index, headers) {
        Ok(plan) => plan,
        Err(why) => return refused(end, why),
    };
    perform(
        sizes, end, received, number, index, lengths, held, headers, plan, payload, output, home,
    )
}

pub fn refused(end: End, why: Refusal) -> Received
    ensures { result ≡ record { end = end; answer = Err why } }
{
    Received {
        end,
        answer: Err(why),
    }
}

// Nothing is refused here: each part of the end is changed by one call.
fn perform(
    sizes: Sizes,
    end: End,
    received: &mut [u32],
    number: &mut [u32],
    index: &mut [u32],
    lengths: &mut [u16],
    held: &mut [u8],
    headers: Headers,
    plan: Plan,
    payload: &[u8],
    output: &mut [u8],
    home: bool,
) -> Received
    requires { PacketReady sizes end received.old number.old index.old lengths.old held.old payload.now output.old × (Ok plan ≡ plan_of headers end.ordering index.old end.sequencing) × KnownHome home (table_of sizes number.old) }
    ensures { Performs (Ok plan) sizes headers payload.now end received.old number.old index.old lengths.old held.old output.old result received.new number.new index.new lengths.new held.new output.new }
{
    let acks = hear(
        headers.standard.delivery,
        sizes,
        end.acks,
        received,
        number,
        headers.acked,
        home,
    );
    let sequencing = sequence(plan, end.sequencing, headers.arranging);
    let ordering = arrange(
        plan,
        end.ordering,
        sizes.fragment_size,
        index,
        lengths,
        held,
        headers.arranging,
        payload,
    );
    let item = item(headers, payload.len());
    let answer = receiving_plan::tell(Ok(plan), item);
    hand_out(answer, payload, output);
    Received {
        end: End {
            acks,
            ordering,
            sequencing,
            ..end
        },
        answer,
    }
}

fn item(headers: Headers, length: usize) -> Item
    ensures { result ≡ item_of headers length }
{
    Item {
        delivery: headers.standard.delivery,
        ordering: headers.standard.ordering,
        stream: headers.arranging.stream,
        length,
    }
}

// A reliable packet is recorded, and what it acknowledges leaves flight.
fn hear(
    delivery: DeliveryGuarantee,
    sizes: Sizes,
    acks: Acknowledgment,
    received: &mut [u32],
    number: &mut [u32],
    acked: AckedPacketHeader,
    home: bool,
) -> Acknowledgment
    requires { (slot_count ≤ length received.old) × (sizes.packets_in_flight ≤ length number.old) × KnownHome home (table_of sizes number.old) }
    ensures { Hearing (acks_by delivery sizes acked acks received.old number.old) result received.new number.new }
{
    match delivery {
        DeliveryGuarantee::Unreliable => acks,
        DeliveryGuarantee::Reliable => acks::steps::incoming(
            acks,
            received,
            &mut number[..sizes.packets_in_flight],
            acked.number,
            acked.acked,
            acked.field,
            home,
        ),
    }
}

fn sequence(plan: Plan, streams: SequencingStreams, item: ArrangingHeader) -> SequencingStreams
    requires { SequencedReady (Ok plan) streams }
    ensures { result ≡ sequenced_by (Ok plan) item streams }
{
    let Plan::Sequenced(sequencing) = plan else {
        return streams;
    };
    let after = arranging::sequenced::arrange(streams, sequencing.at, item.stream, item.index);
    after.streams
}

fn arrange(
    plan: Plan,
    streams: OrderingStreams,
    f: usize,
    index: &mut [u32],
    lengths: &mut [u16],
    held: &mut [u8],
    item: ArrangingHeader,
    payload: &[u8],
) -> OrderingStreams
    requires { RoomForAll f (lending_all streams index.old lengths.old held.old) × (length payload.now ≤ f) × OrderedReady (Ok plan) streams index.old item }
    ensures { LeavesAll (ordered_by (Ok plan) f item payload.now (lending_all streams index.old lengths.old held.old)) result index.new lengths.new held.new }
{
    let Plan::Ordered(planned) = plan else {
        return streams;
    };
    arranging::ordered::perform(
        streams,
        f,
        index,
        lengths,
        held,
        planned.at,
        planned.plan,
        item.stream,
        item.index,
        payload,
    )
}

// What is handed out goes to the start of the output.
fn hand_out(answer: Result<Answer, Refusal>, payload: &[u8], output: &mut [u8])
    requires { length payload.now ≤ length output.old }
    ensures { output.new ≡ handed answer payload.now output.old }
{
    if let Ok(Answer::Out(_)) = answer {
        copying::copy(payload, output);
    }
}
