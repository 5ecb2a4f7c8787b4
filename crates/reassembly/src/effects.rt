// For the crates above: a plan is carried out. Each part of the table is changed in one place, and by a straight line of calls.
ghost use Rattle.std.specs.Prelude.{◌≡◌, cond, ◌≤◌, ◌<◌, ◌+◌, length, Ok};
ghost use Rattle.sequence_buffer.specs.Buffer.{inserted_num, inserted_slots, removed_slots};
ghost use Rattle.reassembly_plan.specs.Plan.{plan_of};
ghost use Rattle.reassembly.specs.Effects.{hands_out, num_after, slots_after, entry_after, header_after, bytes_after, output_after, length_of, joined_answer, answer_of, Performs};
ghost use Rattle.reassembly.specs.Room.{lending, Room, Joins, Hands};

use reassembly_plan::plan::{Fragment, Plan};
use reassembly_plan::words::{AckHeader, Entry};
use serial::PacketNumber;
use terms::Refusal;

// A message that is whole: so many bytes at the start of the output, and fragment 0's header.
#[derive(Clone, Copy)]
pub struct Message {
    pub length: usize,
    pub header: AckHeader,
}

#[derive(Clone, Copy)]
pub struct Handled {
    pub sequence_num: PacketNumber,
    pub answer: Result<Option<Message>, Refusal>,
}

// Carries out a plan: a refusal leaves everything. For the crates above: requires room, a payload to F and the plan that `judge`
// gave.
pub fn perform(
    f: usize,
    sequence_num: PacketNumber,
    slots: &mut [u32],
    entry: &mut [u64],
    header: &mut [u64],
    bytes: &mut [u8],
    fragment: Fragment,
    plan: Result<Plan, Refusal>,
    payload: &[u8],
    output: &mut [u8],
) -> Handled
    requires { Room f (lending sequence_num.0 slots.old entry.old header.old bytes.old) output.old
        × (length payload.now ≤ f)
        × (plan ≡ plan_of sequence_num.0 slots.old entry.old fragment (length payload.now)) }
    ensures { Performs plan f fragment payload.now (lending sequence_num.0 slots.old entry.old header.old bytes.old) output.old result slots.new entry.new header.new bytes.new output.new }
{
    match plan {
        Ok(plan) => carry_out(
            f,
            sequence_num,
            slots,
            entry,
            header,
            bytes,
            fragment,
            plan,
            payload,
            output,
        ),
        Err(why) => Handled {
            sequence_num,
            answer: Err(why),
        },
    }
}

fn carry_out(
    f: usize,
    sequence_num: PacketNumber,
    slots: &mut [u32],
    entry: &mut [u64],
    header: &mut [u64],
    bytes: &mut [u8],
    fragment: Fragment,
    plan: Plan,
    payload: &[u8],
    output: &mut [u8],
) -> Handled
    requires { Room f (lending sequence_num.0 slots.old entry.old header.old bytes.old) output.old
        × (length payload.now ≤ f)
        × (Ok plan ≡ plan_of sequence_num.0 slots.old entry.old fragment (length payload.now)) }
    ensures { Performs (Ok plan) f fragment payload.now (lending sequence_num.0 slots.old entry.old header.old bytes.old) output.old result slots.new entry.new header.new bytes.new output.new }
{
    let number = fragment.number;
    let at = sequence_buffer::slot(slots.len(), number);
    let room = at * (16 * f);
    let after = number_in(plan, sequence_num, slots, number);
    note(plan, entry, at, fragment.count);
    keep_header(plan, header, at, fragment);
    join(plan, bytes, room, payload);
    hand_out(plan, bytes, room, output);
    Handled {
        sequence_num: after,
        answer: tell(plan, header, at),
    }
}

// The entry's number is put in where it is made, and taken out where the count is reached.
#[tactic(auto, unfolding(crate::specs::Effects::num_after, crate::specs::Effects::slots_after))]
fn number_in(
    plan: Plan,
    sequence_num: PacketNumber,
    slots: &mut [u32],
    number: PacketNumber,
) -> PacketNumber
    requires { (1 ≤ length slots.old) × (length slots.old ≤ 64) }
    ensures result_value { result.0 ≡ num_after (Ok plan) sequence_num.0 slots.old number.0 }
    ensures slots_after { slots.new ≡ slots_after (Ok plan) sequence_num.0 slots.old number.0 }
{
    match plan {
        Plan::Make => make_entry(sequence_num, slots, number),
        Plan::Join(joining) => {
            let after = make_if(joining.made, sequence_num, slots, number);
            let entry = joining.entry;
            remove_entry(entry.received == entry.total, slots, number);
            after
        }
    }
}

// By itself, so that a fragment of a message that is known calls nothing.
#[tactic(auto, unfolding(sequence_buffer::specs::Buffer::inserted))]
fn make_entry(sequence_num: PacketNumber, slots: &mut [u32], number: PacketNumber) -> PacketNumber
    requires { (1 ≤ length slots.old) × (length slots.old ≤ 64) }
    ensures result_value { result.0 ≡ inserted_num sequence_num.0 slots.old number.0 }
    ensures slots_after { slots.new ≡ inserted_slots sequence_num.0 slots.old number.0 }
{
    let inserted = sequence_buffer::insert(sequence_num, slots, number);
    inserted.sequence_num
}

fn make_if(
    made: bool,
    sequence_num: PacketNumber,
    slots: &mut [u32],
    number: PacketNumber,
) -> PacketNumber
    requires { (1 ≤ length slots.old) × (length slots.old ≤ 64) }
    ensures result_value { result.0 ≡ cond made (inserted_num sequence_num.0 slots.old number.0) sequence_num.0 }
    ensures slots_after { slots.new ≡ cond made (inserted_slots sequence_num.0 slots.old number.0) slots.old }
{
    if made {
        return make_entry(sequence_num, slots, number);
    }
    sequence_num
}

fn remove_entry(whole: bool, slots: &mut [u32], number: PacketNumber)
    requires { (1 ≤ length slots.old) × (length slots.old ≤ 64) }
    ensures { slots.new ≡ cond whole (removed_slots slots.old number.0) slots.old }
{
    if whole {
        sequence_buffer::remove(slots, number);
    }
}

// The entry at its slot.
#[tactic(auto, unfolding(crate::specs::Effects::entry_after))]
fn note(plan: Plan, entry: &mut [u64], at: usize, count: u8)
    requires { at < length entry.old }
    ensures { entry.new ≡ entry_after (Ok plan) count at entry.old }
{
    entry[at] = match plan {
        Plan::Make => Entry::opened(count).pack(),
        Plan::Join(joining) => joining.entry.pack(),
    };
}

// The acknowledgment header that comes with fragment 0.
#[tactic(auto, unfolding(crate::specs::Effects::header_after))]
fn keep_header(plan: Plan, header: &mut [u64], at: usize, fragment: Fragment)
    requires { at < length header.old }
    ensures { header.new ≡ header_after (Ok plan) fragment at header.old }
{
    if let Plan::Join(_) = plan {
        if fragment.id == 0 {
            header[at] = fragment.header.pack();
        }
    }
}

// The payload goes to its place in the room of its entry.
#[tactic(auto, unfolding(crate::specs::Effects::bytes_after))]
fn join(plan: Plan, bytes: &mut [u8], room: usize, payload: &[u8])
    requires { Joins room (length payload.now) (length bytes.old) plan }
    ensures { bytes.new ≡ bytes_after (Ok plan) room payload.now bytes.old }
{
    if let Plan::Join(joining) = plan {
        let start = room + joining.at;
        copying::copy(payload, &mut bytes[start..start + payload.len()]);
    }
}

// A message that is whole goes to the output.
#[tactic(auto, unfolding(crate::specs::Effects::output_after))]
fn hand_out(plan: Plan, bytes: &[u8], room: usize, output: &mut [u8])
    requires { Hands room (length bytes.now) (length output.old) plan }
    ensures { output.new ≡ output_after (Ok plan) room bytes.now output.old }
{
    if let Plan::Join(joining) = plan {
        let entry = joining.entry;
        if goes_out(entry) {
            copying::copy(&bytes[room..room + message_length(entry)], output);
        }
    }
}

// The count is reached, and fragment 0 was received.
fn goes_out(entry: Entry) -> bool
    ensures { result ≡ hands_out entry }
{
    entry.received == entry.total && entry.ids % 2 == 1
}

// How many bytes the message of an entry has.
fn message_length(entry: Entry) -> usize
    ensures { result ≡ length_of entry }
{
    entry.joined as usize
}

// What is answered. The header is fragment 0's, which was kept.
#[tactic(auto, unfolding(crate::specs::Effects::answer_of))]
fn tell(plan: Plan, header: &[u64], at: usize) -> Result<Option<Message>, Refusal>
    requires { at < length header.now }
    ensures { result ≡ answer_of (Ok plan) at header.now }
{
    match plan {
        Plan::Make => Err(Refusal::ExceededMaxFragments),
        Plan::Join(joining) => tell_joined(joining.entry, header[at]),
    }
}

#[tactic(auto, unfolding(crate::specs::Effects::joined_answer))]
fn tell_joined(entry: Entry, header: u64) -> Result<Option<Message>, Refusal>
    ensures { result ≡ joined_answer entry header }
{
    if entry.received != entry.total {
        return Ok(None);
    }
    if entry.ids % 2 != 1 {
        return Err(Refusal::MissingAckHeader);
    }
    Ok(Some(Message {
        length: message_length(entry),
        header: AckHeader::unpack(header),
    }))
}
