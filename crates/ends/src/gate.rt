// 1, 2 and 13, which every call of a user tries first: one gate for all of them.
ghost use Rattle.std.specs.Prelude.{◌≡◌, true, [], ◌≤◌, length, IfOk};
ghost use Rattle.received.specs.Record.{KnownLapped};
ghost use Rattle.terms.specs.Sizes.{in_range};
ghost use Rattle.flight_home.specs.AtHome.{AtHome, KnownHome};
ghost use Rattle.acks.specs.State.{table_of, slot_of};
ghost use Rattle.ends.specs.State.{lending, fresh_end};
ghost use Rattle.ends.specs.Gate.{is_lent, is_sound, gate_of, said};

use crate::End;
use terms::{Refusal, Sizes};

pub fn check(
    sizes: Sizes,
    end: End,
    received: &[u32],
    number: &[u32],
    records: &[u32],
    payloads: &[u8],
    slots: &[u32],
    entry: &[u64],
    header: &[u64],
    joined: &[u8],
    index: &[u32],
    lengths: &[u16],
    held: &[u8],
    output: &[u8],
) -> Result<(), Refusal>
    ensures { result ≡ gate_of sizes (lending end received.now number.now records.now payloads.now slots.now entry.now header.now joined.now index.now lengths.now held.now) output.now }
{
    look(
        sizes, end, received, number, records, payloads, slots, entry, header, joined, index,
        lengths, held, output,
    )?;
    Ok(())
}

// What the gate has seen of an end that it lets through, where a `false` says nothing: each packet in flight at its own place,
// and the slots of the received record in laps.
#[derive(Clone, Copy)]
pub struct Seen {
    pub home: bool,
    pub lapped: bool,
}

// The same, with what it has seen on the way: a number in flight is then found without a walk, and the field mostly made
// without one. The record is judged last, which is quicker than between the tables.
pub fn look(
    sizes: Sizes,
    end: End,
    received: &[u32],
    number: &[u32],
    records: &[u32],
    payloads: &[u8],
    slots: &[u32],
    entry: &[u64],
    header: &[u64],
    joined: &[u8],
    index: &[u32],
    lengths: &[u16],
    held: &[u8],
    output: &[u8],
) -> Result<Seen, Refusal>
    ensures gate_value { said result ≡ gate_of sizes (lending end received.now number.now records.now payloads.now slots.now entry.now header.now joined.now index.now lengths.now held.now) output.now }
    ensures known_home { IfOk result (λ seen. KnownHome seen.home (table_of sizes number.now)) }
    ensures known_lapped { IfOk result (λ seen. KnownLapped seen.lapped received.now) }
{
    if !sizes.in_range() {
        return Err(Refusal::BadSizes);
    }
    if !is_lent(
        sizes, received, number, records, payloads, slots, entry, header, joined, index, lengths,
        held, output,
    ) {
        return Err(Refusal::BadStorage);
    }
    let home = is_home(sizes, end, number);
    if !is_sound(sizes, end, number, slots, entry, index, lengths, home) {
        return Err(Refusal::BadState);
    }
    let lapped = acks::home::is_lapped(received);
    if !acks::home::is_record_sound(received, lapped) {
        return Err(Refusal::BadState);
    }
    Ok(Seen { home, lapped })
}

// Each packet in flight is at its own place, by the number of the next packet. Requires sizes in range, and columns as long
// as stated.
fn is_home(sizes: Sizes, end: End, number: &[u32]) -> bool
    requires { (in_range sizes ≡ true) × (sizes.packets_in_flight ≤ length number.now) }
    ensures { result ≡ true → AtHome (slot_of sizes) (table_of sizes number.now) }
{
    let acks = end.acks;
    acks::home::is_home(sizes, acks.sequence_number, number)
}

// Nothing that is lent is shorter than stated, whatever the counters. For the crates above: requires sizes in range.
pub fn is_lent(
    sizes: Sizes,
    received: &[u32],
    number: &[u32],
    records: &[u32],
    payloads: &[u8],
    slots: &[u32],
    entry: &[u64],
    header: &[u64],
    joined: &[u8],
    index: &[u32],
    lengths: &[u16],
    held: &[u8],
    output: &[u8],
) -> bool
    requires { in_range sizes ≡ true }
    ensures { result ≡ is_lent sizes (lending fresh_end received.now number.now records.now payloads.now slots.now entry.now header.now joined.now index.now lengths.now held.now) output.now }
{
    if !acks::gate::is_lent(sizes, received, number, records, payloads) {
        return false;
    }
    let f = sizes.fragment_size;
    let c = sizes.reassembly_slots;
    if reassembly_plan::gate::too_short(f, c, slots, entry, header, joined, output) {
        return false;
    }
    !arranging_plan::gate::too_short(f, index, lengths, held, output)
}

// No table but the received record breaks a rule of 13, which is about no bytes. Requires sizes in range, each table to be
// as long as stated, and packets at home where they are said to be.
fn is_sound(
    sizes: Sizes,
    end: End,
    number: &[u32],
    slots: &[u32],
    entry: &[u64],
    index: &[u32],
    lengths: &[u16],
    home: bool,
) -> bool
    requires { (in_range sizes ≡ true) × (sizes.packets_in_flight ≤ length number.now) × (sizes.reassembly_slots ≤ length slots.now) × (sizes.reassembly_slots ≤ length entry.now) × (256 ≤ length index.now) × (256 ≤ length lengths.now) × (home ≡ true → AtHome (slot_of sizes) (table_of sizes number.now)) }
    ensures { result ≡ is_sound sizes (lending end [] number.now [] [] slots.now entry.now [] [] index.now lengths.now []) }
{
    if !acks::home::is_flight_sound(sizes, number, home) {
        return false;
    }
    let f = sizes.fragment_size;
    let c = sizes.reassembly_slots;
    if !reassembly_plan::gate::sound(f, &slots[..c], entry) {
        return false;
    }
    if !arranging_plan::ordered::sound(end.ordering, f, index, lengths) {
        return false;
    }
    let sequencing = end.sequencing;
    let known = sequencing.known;
    known.sound()
}
