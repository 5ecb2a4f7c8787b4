// Which packets an acknowledgment takes out of flight.
ghost use Rattle.std.specs.Prelude.{◌≡◌, map};
ghost use Rattle.sequence_buffer.specs.Buffer.{emptied};
ghost use Rattle.flight.specs.Acked.{is_told};

use key_parts::parts::NO_PACKET;
use serial::PacketNumber;

// The acknowledged number goes, and each number before it whose bit is set.
pub fn remove(number: &mut [u32], acked: PacketNumber, field: u32)
    ensures { number.new ≡ map (emptied (is_told acked.0 field)) number.old }
{
    for word in number.iter_mut() {
        *word = without_acked(*word, acked, field);
    }
}

// A word, or none where its packet goes.
fn without_acked(word: u32, acked: PacketNumber, field: u32) -> u32
    ensures { result ≡ emptied (is_told acked.0 field) word }
{
    if word < NO_PACKET {
        let before = serial::distance(acked.0, (word / 32768) as u16);
        if before == 0 {
            return sequence_buffer::NONE;
        }
        if before <= 32 {
            if (field >> (before - 1)) % 2 == 1 {
                return sequence_buffer::NONE;
            }
        }
    }
    word
}
