// Which packets are given up as dropped: one a call, the least number first.
ghost use Rattle.std.specs.Prelude.{◌≡◌, ℕ, ◌+◌, ◌*◌, ◌<◌, ◌≤◌, true, false, fold, length, slice_index};
ghost use Rattle.key_parts.specs.Words.{no_packet};
ghost use Rattle.flight.specs.Entry.{number_in, numbers_in};
ghost use Rattle.flight.specs.Lost.{is_lost, NoneLost, least_lost, lesser, Table, drop_of, number_left, output_left};

use crate::SentPacket;
use key_parts::parts::NO_PACKET;
use serial::PacketNumber;

// A packet that is given back. Its payload stands at the start of the output.
#[derive(Clone, Copy)]
pub struct Dropped {
    pub number: PacketNumber,
    pub sent: SentPacket,
    pub count: usize,
}

// Takes the least lost packet out of flight. Requires a sound table, and an output that holds any slot.
pub fn drop_one(
    number: &mut [u32],
    records: &[u32],
    bytes: &[u8],
    room: usize,
    remote: PacketNumber,
    output: &mut [u8],
) -> Option<Dropped>
    requires { Table room number.old records.now bytes.now × (room ≤ length output.old) }
    ensures value { result ≡ drop_of remote.0 number.old records.now }
    ensures number_after { number.new ≡ number_left (drop_of remote.0 number.old records.now) number.old }
    ensures output_after { output.new ≡ output_left (drop_of remote.0 number.old records.now) room number.old bytes.now output.old }
{
    let least = least_lost(number, remote);
    if least >= 65536 {
        return None;
    }
    let packet = PacketNumber(least as u16);
    let at = crate::places::find(number, packet)?;
    let count = crate::entry::payload_length(number[at]);
    let start = at * room;
    copying::copy(&bytes[start..start + count], output);
    number[at] = sequence_buffer::NONE;
    Some(Dropped {
        number: packet,
        sent: crate::entry::sent_packet(records[at]),
        count,
    })
}

// The least number that is lost, or none.
fn least_lost(number: &[u32], remote: PacketNumber) -> u32
    ensures { result ≡ least_lost remote.0 (numbers_in number.now) }
{
    let mut least = sequence_buffer::NONE;
    for part in number.chunks(key_parts::parts::PART) {
        if !is_none_lost(part, remote) {
            least = lesser(least, part, remote);
        }
    }
    least
}

// It is easily seen that none of the numbers of a part is lost. Without a branch for each the compiler looks at several at once.
fn is_none_lost(part: &[u32], remote: PacketNumber) -> bool
    ensures { result ≡ true → NoneLost remote.0 (numbers_in part.now) }
{
    if keys::none_below(part, NO_PACKET) {
        return true;
    }
    let mut all = u32::MAX;
    for word in part {
        all &= unless_near(*word, remote.0);
    }
    NO_PACKET <= all
}

// A number, or the least of a part's that are lost.
fn lesser(least: u32, part: &[u32], remote: PacketNumber) -> u32
    ensures { result ≡ fold (lesser remote.0) least (numbers_in part.now) }
{
    let mut least = least;
    for word in part {
        let entry = crate::entry::number(*word);
        if entry < least && is_lost(entry, remote) {
            least = entry;
        }
    }
    least
}

// A word, or none where its number is at most 32 before the remote acknowledged number, or after it.
fn unless_near(word: u32, remote: u16) -> u32
    ensures { no_packet ≤ result → is_lost remote (number_in word) ≡ false }
{
    let before = std::num::wrapping_sub_u32(remote as u32, word / 32768) % 65536;
    if before < 33 || 32768 < before {
        return u32::MAX;
    }
    word
}

// An entry is less than the remote acknowledged number and more than 32 before it.
fn is_lost(entry: u32, remote: PacketNumber) -> bool
    ensures { result ≡ is_lost remote.0 entry }
{
    entry < 65536
        && serial::sequence_less_than(entry as u16, remote.0)
        && serial::distance(remote.0, entry as u16) > 32
}
