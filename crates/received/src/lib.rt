// The record of received packet numbers, and what is told of it to the other end: the newest number and a field that
// says which of the 32 before it are in the record. Read `ack_bitfield` first. The record is a sequence buffer: the
// number after the newest by value, its slots lent. Every function here is for the crates above.
#![tactic(auto)]

ghost use Rattle.std.specs.Prelude.{◌≡◌, ◌≤◌, length};
ghost use Rattle.laws.specs.Bits.{bits_below};
ghost use Rattle.received.specs.Record.{slot_count, slots_of, recorded, KnownLapped};
ghost use Rattle.received.specs.Field.{newest_of, heard, field_of, FieldFacts};
ghost use Rattle.sequence_buffer.specs.Buffer.{inserted};

use sequence_buffer::{Inserted, exists, insert};
use serial::PacketNumber;

mod recent;

// How many slots the record has. What is lent beyond them is not the record's.
pub const SLOTS: usize = 33;

// The newest number, as it is told.
pub fn remote_sequence_num(sequence_num: PacketNumber) -> PacketNumber
    ensures { result.0 ≡ newest_of sequence_num.0 }
{
    PacketNumber(serial::distance(sequence_num.0, 1))
}

// Bit i - 1 says that the newest - i is in the record. Requires the record's slots, and that they stand in laps where they
// are said to.
pub fn ack_bitfield(sequence_num: PacketNumber, received: &[u32], lapped: bool) -> u32
    requires { (slot_count ≤ length received.now) × KnownLapped lapped received.now }
    ensures { result ≡ field_of sequence_num.0 (slots_of received.now) }
{
    let newest = remote_sequence_num(sequence_num);
    let slots = &received[..SLOTS];
    if lapped && recent::is_home(newest.0, slots) {
        return recent::field(newest.0, slots);
    }
    bits(newest.0, slots)
}

// Puts a number into the record, unless it is too old. Requires the record's slots.
pub fn receive(sequence_num: PacketNumber, received: &mut [u32], number: PacketNumber) -> Inserted
    requires { slot_count ≤ length received.old }
    ensures value { result ≡ inserted sequence_num.0 (slots_of received.old) number.0 }
    ensures received_after { received.new ≡ recorded sequence_num.0 received.old number.0 }
{
    insert(sequence_num, &mut received[..SLOTS], number)
}

// The field bit by bit, for any record. Requires its slots.
fn bits(newest: u16, slots: &[u32]) -> u32
    requires { length slots.now ≡ slot_count }
    ensures { result ≡ bits_below (heard newest slots.now) 32 }
{
    let mut field = 0;
    for k in 0..32 {
        let number = PacketNumber(serial::distance(newest, k + 1));
        if exists(slots, number) {
            field |= 1 << k;
        }
    }
    field
}

// What the field says, bit by bit. It has no code: its contract is the theorem.
#[tactic(auto, using(crate::proofs::Facts::facts))]
pub fn field_facts()
    ensures { FieldFacts }
{}
