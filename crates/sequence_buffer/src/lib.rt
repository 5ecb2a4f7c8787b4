// Which of the latest packet numbers are known: the number after the newest by value, and a lent column of slots, whose
// length is the slot count (33 for received packets, C for reassembly). A number's slot is its remainder by that count.
// Read `insert` first. What else an entry has is the caller's, in columns of its own: an entry is gone where its slot
// has no number, and `insert` says which slot it took. Every function here is for the crates above.
#![tactic(auto)]

ghost use Rattle.std.specs.Prelude.{◌≡◌, map, ℕ, ◌%◌, ◌≤◌, ◌<◌, length, get_or, true, false};
ghost use Rattle.sequence_buffer.specs.Buffer.{fresh, holds, too_old, goes, emptied, advanced_num, advanced_slots, inserted, inserted_slots, removed_slots};
ghost use Rattle.sequence_buffer.specs.Facts.{SlotFacts};

use serial::PacketNumber;

// What is written to a slot with no number. Any value from 65,536 on is none; this one has every bit, and so passes the tests
// that keep only the bits which all entries have.
pub const NONE: u32 = 4294967295;

#[derive(Clone, Copy, PartialEq, Eq, Debug)]
pub struct Inserted {
    pub sequence_num: PacketNumber,
    pub insertion: Option<usize>,
}

// Puts a number into its slot, unless it is too old. Requires 1 to 64 slots.
#[tactic(auto, unfolding(crate::specs::Buffer::inserted, crate::specs::Buffer::inserted_num, crate::specs::Buffer::inserted_slots))]
pub fn insert(sequence_num: PacketNumber, slots: &mut [u32], number: PacketNumber) -> Inserted
    requires { (1 ≤ length slots.old) × (length slots.old ≤ 64) }
    ensures value { result ≡ inserted sequence_num.0 slots.old number.0 }
    ensures slots_after { slots.new ≡ inserted_slots sequence_num.0 slots.old number.0 }
{
    let size = slots.len();
    if too_old(sequence_num, slots, number) {
        return Inserted {
            sequence_num,
            insertion: None,
        };
    }
    let after = advance_sequence(sequence_num.0, slots, number.0);
    let at = slot(size, number);
    slots[at] = number.0 as u32;
    Inserted {
        sequence_num: PacketNumber(after),
        insertion: Some(at),
    }
}

// The number is too old to be inserted. Requires 1 to 64 slots.
pub fn too_old(sequence_num: PacketNumber, slots: &[u32], number: PacketNumber) -> bool
    requires { (1 ≤ length slots.now) × (length slots.now ≤ 64) }
    ensures { result ≡ too_old sequence_num.0 slots.now number.0 }
{
    serial::sequence_less_than(
        number.0,
        serial::distance(sequence_num.0, slots.len() as u16),
    )
}

// The number is in its slot. Requires 1 to 64 slots.
pub fn exists(slots: &[u32], number: PacketNumber) -> bool
    requires { (1 ≤ length slots.now) × (length slots.now ≤ 64) }
    ensures { result ≡ holds slots.now number.0 }
{
    let at = slot(slots.len(), number);
    slots[at] == number.0 as u32
}

// Takes a number out of its slot, and says whether it was there. Requires 1 to 64 slots.
#[tactic(auto, unfolding(crate::specs::Buffer::removed_slots))]
pub fn remove(slots: &mut [u32], number: PacketNumber) -> bool
    requires { (1 ≤ length slots.old) × (length slots.old ≤ 64) }
    ensures value { result ≡ holds slots.old number.0 }
    ensures slots_after { slots.new ≡ removed_slots slots.old number.0 }
{
    let at = slot(slots.len(), number);
    if slots[at] == number.0 as u32 {
        slots[at] = NONE;
        return true;
    }
    false
}

// A buffer that has had no number: its `sequence_num` is 0.
pub fn new(slots: &mut [u32]) -> PacketNumber
    ensures result_value { result.0 ≡ 0 }
    ensures slots_after { slots.new ≡ fresh (length slots.old) }
{
    slots.fill(NONE);
    PacketNumber(0)
}

// The slot of a number. Requires 1 to 64 slots.
pub fn slot(size: usize, number: PacketNumber) -> usize
    requires { (1 ≤ size) × (size ≤ 64) }
    ensures { (result ≡ number.0 % size) × (result < size) }
{
    (number.0 as usize) % size
}

// Moves on to a number that is as new as `sequence_num` or newer, removing the entries that it passes.
#[tactic(auto, unfolding(crate::specs::Buffer::advanced_num, crate::specs::Buffer::advanced_slots))]
fn advance_sequence(sequence_num: u16, slots: &mut [u32], number: u16) -> u16
    ensures value { result ≡ advanced_num sequence_num number }
    ensures slots_after { slots.new ≡ advanced_slots sequence_num slots.old number }
{
    let after = serial::successor(number);
    if serial::sequence_greater_than(after, sequence_num) {
        let passed = serial::distance(number, sequence_num) as usize;
        remove_entries(slots, slots.len() <= passed, sequence_num, number);
        return after;
    }
    sequence_num
}

// Every entry goes, or each whose own number lies from one number to another.
fn remove_entries(slots: &mut [u32], whole: bool, from: u16, to: u16)
    ensures { slots.new ≡ map (emptied (goes whole from to)) slots.old }
{
    if nothing_goes(slots, whole, from, to) {
        return;
    }
    for entry in slots.iter_mut() {
        *entry = without_passed(*entry, whole, from, to);
    }
}

// A number that comes in order passes only itself, and it is not there. A `false` says nothing.
#[tactic(auto, using(crate::proofs::Passes::none_go))]
fn nothing_goes(slots: &[u32], whole: bool, from: u16, to: u16) -> bool
    ensures { result ≡ true → slots.now ≡ map (emptied (goes whole from to)) slots.now }
{
    if whole || from != to {
        return false;
    }
    !stands(slots, to)
}

// The number is in a slot, its own or another.
fn stands(slots: &[u32], number: u16) -> bool
    ensures { result ≡ false → (j : ℕ) → j < length slots.now → get_or slots.now j 0 ≡ number → ⊥ }
{
    let mut found = false;
    for entry in slots {
        found |= *entry == number as u32;
    }
    found
}

// An entry, or none where it goes.
#[tactic(auto, unfolding(crate::specs::Buffer::goes, crate::specs::Buffer::emptied))]
fn without_passed(entry: u32, whole: bool, from: u16, to: u16) -> u32
    ensures { result ≡ emptied (goes whole from to) entry }
{
    if whole
        || entry < 65536 && serial::distance(entry as u16, from) <= serial::distance(to, from)
    {
        return NONE;
    }
    entry
}

// What holds of every buffer, for every slot count. It has no code: its contract is the theorem.
#[tactic(auto, using(crate::proofs::Home::facts))]
pub fn slot_facts()
    ensures { SlotFacts }
{}
