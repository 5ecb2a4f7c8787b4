// What is answered when something has come, and what is to become of a packet: nothing is written before that is known. Read
// `judge` first. It leaves out what a plan changes of an end, which is `receiving_packets`. What hearing of a packet changes is
// defined here (`specs/Heard.antt`), for packets and fragments alike.
#![tactic(auto)]

ghost use Rattle.std.specs.Prelude.{◌≡◌, ℕ, ◌≤◌, ◌<◌, length};
ghost use Rattle.arranging_plan.specs.Ordered.{stream_at};
ghost use Rattle.receiving_plan.specs.Plan.{plan_of, sequenced_plan, ordered_plan, sequenced_told, ordered_told, told};

use arranging::ordered::OrderingStreams;
use arranging::sequenced::SequencingStreams;
use arranging_plan::ordered::Planned;
use ordering::Arranged;
use packet::{ArrangingHeader, DeliveryGuarantee, Headers, OrderingGuarantee};
use sequencing::Sequenced;
use terms::Refusal;

// An item that is handed out: so many bytes at the start of the output, and how it was sent. `stream` is that of an ordered or
// sequenced item.
#[derive(Clone, Copy)]
pub struct Item {
    pub delivery: DeliveryGuarantee,
    pub ordering: OrderingGuarantee,
    pub stream: u8,
    pub length: usize,
}

#[derive(Clone, Copy)]
pub enum Answer {
    Out(Item),
    // An ordered item waits for one before it.
    Held,
    // An ordered item came before.
    Old,
    // A newer item came on the sequenced stream.
    Dropped,
    // A fragment has joined its message, and more are to come.
    Waiting,
    Heartbeat,
}

// What becomes of a sequenced item, and the place of its stream.
#[derive(Clone, Copy)]
pub struct Sequencing {
    pub at: usize,
    pub answer: Sequenced,
}

#[derive(Clone, Copy)]
pub enum Plan {
    // An unordered item is handed out at each arrival.
    Unordered,
    Sequenced(Sequencing),
    // What `judge` plans is none that was refused.
    Ordered(Planned),
}

// Requires sound streams.
pub fn judge(
    ordered: OrderingStreams,
    sequenced: SequencingStreams,
    index: &[u32],
    headers: Headers,
) -> Result<Plan, Refusal>
    requires { (sequenced.known.made ≤ 4) × (ordered.known.made ≤ 4) × (256 ≤ length index.now) × ((j : ℕ) → j < 4 → (stream_at ordered j).held ≤ 64) }
    ensures { result ≡ plan_of headers ordered index.now sequenced }
{
    let item = headers.arranging;
    match headers.standard.ordering {
        OrderingGuarantee::None => Ok(Plan::Unordered),
        OrderingGuarantee::Sequenced => on_sequenced(sequenced, item),
        OrderingGuarantee::Ordered => {
            on_ordered(arranging_plan::ordered::judge(ordered, index, item.stream, item.index))
        }
    }
}

// 7, or what module 5 says. The place is a number and no Option, since a new stream is made there.
fn on_sequenced(sequenced: SequencingStreams, item: ArrangingHeader) -> Result<Plan, Refusal>
    requires { sequenced.known.made ≤ 4 }
    ensures { result ≡ sequenced_plan sequenced item }
{
    let at = sequenced.known.place(item.stream);
    if at == 4 {
        return Err(Refusal::NoStream);
    }
    let after = sequencing::arrange(sequenced.at(at), item.index);
    Ok(Plan::Sequenced(Sequencing {
        at,
        answer: after.answer,
    }))
}

// 7 and 6, or what module 4 says.
fn on_ordered(planned: Planned) -> Result<Plan, Refusal>
    ensures { result ≡ ordered_plan planned }
{
    planned.plan?;
    Ok(Plan::Ordered(planned))
}

// What is answered.
pub fn tell(plan: Result<Plan, Refusal>, item: Item) -> Result<Answer, Refusal>
    ensures { result ≡ told plan item }
{
    match plan? {
        Plan::Unordered => Ok(Answer::Out(item)),
        Plan::Sequenced(sequencing) => Ok(tell_sequenced(sequencing.answer, item)),
        Plan::Ordered(planned) => tell_ordered(planned.plan, item),
    }
}

fn tell_sequenced(answer: Sequenced, item: Item) -> Answer
    ensures { result ≡ sequenced_told answer item }
{
    match answer {
        Sequenced::Out => Answer::Out(item),
        Sequenced::Dropped => Answer::Dropped,
    }
}

fn tell_ordered(plan: Result<Arranged, Refusal>, item: Item) -> Result<Answer, Refusal>
    ensures { result ≡ ordered_told plan item }
{
    Ok(match plan? {
        Arranged::Out => Answer::Out(item),
        Arranged::Held(_) => Answer::Held,
        Arranged::Old => Answer::Old,
    })
}
