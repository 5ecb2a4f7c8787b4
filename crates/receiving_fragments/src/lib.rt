// A fragment: it joins its message, and where that is whole the message is handed out and its packet acknowledged. Read `join`
// first. It leaves out what becomes of the table of messages, which is `reassembly`, and reading the headers, which is
// `receiving`.
#![tactic(auto)]

ghost use Rattle.std.specs.Prelude.{◌≡◌, ◌≤◌, length};
ghost use Rattle.received.specs.Record.{slot_count};
ghost use Rattle.flight_home.specs.AtHome.{KnownHome};
ghost use Rattle.acks.specs.State.{table_of};
ghost use Rattle.receiving_plan.specs.Heard.{Hearing};
ghost use Rattle.receiving_fragments.specs.Fragments.{part_of, acks_at_whole, told_part, FragmentReady, Joins};

use acks::Acknowledgment;
use packet::{DeliveryGuarantee, Headers, OrderingGuarantee};
use reassembly::effects::Message;
use reassembly_plan::plan::Fragment;
use reassembly_plan::words::AckHeader;
use receiving_plan::{Answer, Item};
use serial::PacketNumber;
use terms::{Refusal, Sizes};

// What a fragment changes of an end, and the answer. It leaves out the streams, so that they are not copied on the way.
#[derive(Clone, Copy)]
pub struct Joined {
    pub acks: Acknowledgment,
    pub reassembly: PacketNumber,
    pub answer: Result<Answer, Refusal>,
}

// Requires the parts of an end that the gate lets through, with packets in flight at home where they are said to be, and a
// payload to F.
pub fn join(
    sizes: Sizes,
    acks: Acknowledgment,
    num: PacketNumber,
    received: &mut [u32],
    number: &mut [u32],
    slots: &mut [u32],
    entry: &mut [u64],
    header: &mut [u64],
    joined: &mut [u8],
    headers: Headers,
    payload: &[u8],
    output: &mut [u8],
    home: bool,
) -> Joined
    requires { FragmentReady sizes num received.old number.old slots.old entry.old header.old joined.old payload.now output.old × KnownHome home (table_of sizes number.old) }
    ensures { Joins sizes headers payload.now acks num received.old number.old slots.old entry.old header.old joined.old output.old result received.new number.new slots.new entry.new header.new joined.new output.new }
{
    let f = sizes.fragment_size;
    let c = sizes.reassembly_slots;
    let fragment = fragment(headers);
    let judged = reassembly_plan::plan::judge(f, num, &slots[..c], entry, fragment, payload.len());
    let plan = match judged {
        Ok(plan) => plan,
        Err(why) => {
            return Joined {
                acks,
                reassembly: num,
                answer: Err(why),
            };
        }
    };
    let handled = reassembly::effects::perform(
        f,
        num,
        &mut slots[..c],
        entry,
        header,
        joined,
        fragment,
        Ok(plan),
        payload,
        output,
    );
    let answer = handled.answer;
    Joined {
        acks: hear_whole(answer, sizes, acks, received, number, home),
        reassembly: handled.sequence_num,
        answer: tell(answer),
    }
}

fn fragment(headers: Headers) -> Fragment
    ensures { result ≡ part_of headers }
{
    let part = headers.fragment;
    let acked = headers.acked;
    Fragment {
        number: part.number,
        id: part.id,
        count: part.count,
        header: AckHeader {
            number: acked.number,
            acked: acked.acked,
            field: acked.field,
        },
    }
}

// "Fragments acknowledge at completion", by fragment 0's header.
fn hear_whole(
    answer: Result<Option<Message>, Refusal>,
    sizes: Sizes,
    acks: Acknowledgment,
    received: &mut [u32],
    number: &mut [u32],
    home: bool,
) -> Acknowledgment
    requires { (slot_count ≤ length received.old) × (sizes.packets_in_flight ≤ length number.old) × KnownHome home (table_of sizes number.old) }
    ensures { Hearing (acks_at_whole answer sizes acks received.old number.old) result received.new number.new }
{
    let Ok(Some(message)) = answer else {
        return acks;
    };
    let header = message.header;
    acks::steps::incoming(
        acks,
        received,
        &mut number[..sizes.packets_in_flight],
        header.number,
        header.acked,
        header.field,
        home,
    )
}

fn tell(answer: Result<Option<Message>, Refusal>) -> Result<Answer, Refusal>
    ensures { result ≡ told_part answer }
{
    let Some(message) = answer? else {
        return Ok(Answer::Waiting);
    };
    Ok(Answer::Out(Item {
        delivery: DeliveryGuarantee::Reliable,
        ordering: OrderingGuarantee::None,
        stream: 0,
        length: message.length,
    }))
}
