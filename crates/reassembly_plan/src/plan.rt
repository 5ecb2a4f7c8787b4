// For the crates above: what is to become of a fragment that has come. Nothing is written before every check of a call is
// done, so judging is a function of its own, which answers a plan.
ghost use Rattle.std.specs.Prelude.{◌≡◌, ◌≤◌, ◌<◌, ◌+◌, length};
ghost use Rattle.reassembly_plan.specs.Plan.{place_of, grown, passed as has_passed, found as found_entry, judged, plan_of};
ghost use Rattle.reassembly_plan.specs.Table.{Growing};

use crate::words::{AckHeader, Entry};
use serial::PacketNumber;
use terms::Refusal;

// A fragment that has come, but for its payload.
#[derive(Clone, Copy)]
pub struct Fragment {
    pub number: PacketNumber,
    pub id: u8,
    pub count: u8,
    // The acknowledgment header of fragment 0. With any other it says nothing.
    pub header: AckHeader,
}

// A fragment that joins its message.
#[derive(Clone, Copy)]
pub struct Joining {
    // Its entry is made first.
    pub made: bool,
    // Where its bytes go in the room of the entry.
    pub at: usize,
    // The entry as it will be.
    pub entry: Entry,
}

// What is to become of a fragment.
#[derive(Clone, Copy)]
pub enum Plan {
    // 8 where the entry was absent: it is made, and the fragment refused.
    Make,
    Join(Joining),
}

// What is to become of a fragment with so many bytes. For the crates above: requires a sound table and a payload to F.
pub fn judge(
    f: usize,
    sequence_num: PacketNumber,
    slots: &[u32],
    entry: &[u64],
    fragment: Fragment,
    size: usize,
) -> Result<Plan, Refusal>
    requires { Growing f slots.now entry.now × (size ≤ f) }
    ensures { result ≡ plan_of sequence_num.0 slots.now entry.now fragment size }
{
    let number = fragment.number;
    let there = sequence_buffer::exists(slots, number);
    if passed(there, sequence_num, slots, number) {
        return Err(Refusal::CouldNotFindFragmentById);
    }
    let at = sequence_buffer::slot(slots.len(), number);
    let held = found(there, entry, at, fragment.count);
    judge_entry(there, held, fragment, size)
}

// No entry has the number, and it is too old for one.
#[tactic(auto, unfolding(crate::specs::Plan::passed))]
fn passed(there: bool, sequence_num: PacketNumber, slots: &[u32], number: PacketNumber) -> bool
    requires { (1 ≤ length slots.now) × (length slots.now ≤ 64) }
    ensures { result ≡ has_passed there sequence_num.0 slots.now number.0 }
{
    !there && sequence_buffer::too_old(sequence_num, slots, number)
}

// The entry of a fragment, as it stands in its slot or as it is made.
#[tactic(auto, unfolding(crate::specs::Plan::found))]
fn found(there: bool, entry: &[u64], at: usize, count: u8) -> Entry
    requires { at < length entry.now }
    ensures { result ≡ found_entry there entry.now at count }
{
    if there {
        return Entry::unpack(entry[at]);
    }
    Entry::opened(count)
}

// 10, 8, 11, or the fragment joins.
fn judge_entry(there: bool, held: Entry, fragment: Fragment, size: usize) -> Result<Plan, Refusal>
    requires { (held.received < 255) × (held.joined + size ≤ 65535) }
    ensures { result ≡ judged there held fragment size }
{
    if held.total != fragment.count {
        return Err(Refusal::FragmentWithUnevenNumberOfFragments);
    }
    let id = fragment.id;
    if 16 <= id {
        if there {
            return Err(Refusal::ExceededMaxFragments);
        }
        return Ok(Plan::Make);
    }
    if (held.ids >> id) % 2 == 1 {
        return Err(Refusal::AlreadyProcessedFragment);
    }
    Ok(Plan::Join(Joining {
        made: !there,
        at: place_of(held),
        entry: grow(held, id, size),
    }))
}

// Where the bytes of a fragment go in the room of its entry: after those that came before it.
fn place_of(held: Entry) -> usize
    ensures { result ≡ place_of held }
{
    held.joined as usize
}

// The entry once the fragment has joined.
fn grow(held: Entry, id: u8, size: usize) -> Entry
    requires { (held.received < 255) × (held.joined + size ≤ 65535) × (id < 16) }
    ensures { result ≡ grown held id size }
{
    Entry {
        total: held.total,
        received: held.received + 1,
        ids: held.ids | (1 << id),
        joined: held.joined + (size as u16),
    }
}
