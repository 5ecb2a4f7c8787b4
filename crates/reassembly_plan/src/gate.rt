// 1, 2 and 13, which every call of a user tries first.
ghost use Rattle.std.specs.Prelude.{◌≡◌, true, ◌||◌, ℕ, ◌+◌, ◌%◌, ◌≤◌, ◌<◌, eqb, leb, length, get_or};
ghost use Rattle.reassembly_plan.specs.Words.{entry_of};
ghost use Rattle.laws.specs.Bits.{bit};
ghost use Rattle.reassembly_plan.specs.Gate.{count_below, entry_sound, sound as soundness, too_short, gate_of};

use crate::words::Entry;
use terms::{Refusal, Sizes};

pub fn check(
    sizes: Sizes,
    slots: &[u32],
    entry: &[u64],
    header: &[u64],
    bytes: &[u8],
    output: &[u8],
) -> Result<(), Refusal>
    ensures { result ≡ gate_of sizes slots.now entry.now header.now bytes.now output.now }
{
    if !sizes.in_range() {
        return Err(Refusal::BadSizes);
    }
    let f = sizes.fragment_size;
    let c = sizes.reassembly_slots;
    if too_short(f, c, slots, entry, header, bytes, output) {
        return Err(Refusal::BadStorage);
    }
    if !sound(f, &slots[..c], entry) {
        return Err(Refusal::BadState);
    }
    Ok(())
}

// A lent buffer is shorter than stated. For the crates above: requires F and C in range.
#[tactic(auto, unfolding(crate::specs::Gate::too_short))]
pub fn too_short(
    f: usize,
    c: usize,
    slots: &[u32],
    entry: &[u64],
    header: &[u64],
    bytes: &[u8],
    output: &[u8],
) -> bool
    requires { (f ≤ 1024) × (c ≤ 64) }
    ensures { result ≡ too_short f c slots.now entry.now header.now bytes.now output.now }
{
    slots.len() < c
        || entry.len() < c
        || header.len() < c
        || bytes.len() < c * (16 * f)
        || output.len() < 16 * f + 17
}

// Not 13. For the crates above: requires F in range, and an entry beside each slot.
pub fn sound(f: usize, slots: &[u32], entry: &[u64]) -> bool
    requires { (f ≤ 1024) × (length slots.now ≤ length entry.now) }
    ensures { result ≡ soundness f slots.now entry.now }
{
    let mut home = true;
    for i in (0..used(slots)).rev() {
        if !sound_beside(f, slots[i], entry[i]) {
            return false;
        }
        home = home && stays_home(slots[i], i, slots.len());
    }
    if home {
        return true;
    }
    !keys::has_twice(slots)
}

// How many slots are to be looked at: the last ones without a number, eight at a time, are left out.
fn used(slots: &[u32]) -> usize
    ensures { (result ≤ length slots.now) × ((j : ℕ) → result ≤ j → j < length slots.now → 65536 ≤ get_or slots.now j 0) }
{
    let mut rest = slots;
    while let Some((front, part)) = rest.split_last_chunk::<8>() {
        if !keys::none_below(part, 65536) {
            break;
        }
        rest = front;
    }
    rest.len()
}

// A slot has its own number or none. Where all have, no number stands twice.
fn stays_home(slot: u32, at: usize, size: usize) -> bool
    requires { 1 ≤ size }
    ensures { result ≡ true → slot < 65536 → slot % size ≡ at }
{
    65536 <= slot || slot as usize % size == at
}

// What stands beside a slot without a number may be anything.
fn sound_beside(f: usize, slot: u32, word: u64) -> bool
    requires { f ≤ 1024 }
    ensures { result ≡ (leb 65536 slot || entry_sound f (entry_of word)) }
{
    if 65536 <= slot {
        return true;
    }
    sound_entry(f, Entry::unpack(word))
}

// As many fragments were received as ids, and no more bytes than they can have.
fn sound_entry(f: usize, entry: Entry) -> bool
    requires { f ≤ 1024 }
    ensures { result ≡ entry_sound f entry }
{
    if !are_so_many(entry.ids, entry.received) {
        return false;
    }
    entry.joined as usize <= f * (entry.received as usize)
}

// So many ids were received. Fragments mostly come in order, and then it is the first ones.
fn are_so_many(ids: u16, received: u8) -> bool
    ensures { result ≡ eqb received (count_below (bit ids) 16) }
{
    if received <= 16 {
        if (1u32 << received) - 1 == ids as u32 {
            return true;
        }
    }
    received as u32 == (ids as u32).count_ones()
}
