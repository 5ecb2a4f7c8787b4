// What a place has: a word with the number of a packet and the length of its payload, or none, and a record of how it was sent.
ghost use Rattle.std.specs.Prelude.{◌≡◌, ◌<◌};
ghost use Rattle.flight.specs.Entry.{word_of, number_in, length_of, packed, packet_of};

use crate::SentPacket;
use serial::{ItemId, PacketNumber};

// Requires a length of 15 bits.
pub fn word(packet: PacketNumber, count: usize) -> u32
    requires { count < 32768 }
    ensures { result ≡ word_of packet.0 count }
{
    packet.0 as u32 * 32768 + count as u32
}

// The number of a packet, or none.
#[tactic(auto, unfolding(crate::specs::Entry::number_in))]
pub fn number(word: u32) -> u32
    ensures { result ≡ number_in word }
{
    if word < key_parts::parts::NO_PACKET {
        return word / 32768;
    }
    sequence_buffer::NONE
}

// How many bytes the payload has.
pub fn payload_length(word: u32) -> usize
    ensures { result ≡ length_of word }
{
    (word % 32768) as usize
}

// Its name says which of a place's two words is made, as `u32::from` would not.
pub fn pack(sent: SentPacket) -> u32
    ensures { result ≡ packed sent }
{
    let item = sent.item;
    sent.ordering as u32 + sent.stream as u32 * 256 + item.0 as u32 * 65536
}

pub fn sent_packet(word: u32) -> SentPacket
    ensures { result ≡ packet_of word }
{
    SentPacket {
        ordering: (word % 256) as u8,
        stream: (word / 256 % 256) as u8,
        item: ItemId((word / 65536 % 65536) as u16),
    }
}
