// What an entry has beside its number, readable, and packed into the words that are lent.
ghost use Rattle.std.specs.Prelude.{◌≡◌};
ghost use Rattle.reassembly_plan.specs.Plan.{opened as blank};
ghost use Rattle.reassembly_plan.specs.Words.{entry_of, entry_word, header_of, header_word};

use serial::PacketNumber;

// A message that is put together. Fragment 0 was received where id 0 was.
#[derive(Clone, Copy)]
pub struct Entry {
    // How many fragments it has, as its first one said. Any byte.
    pub total: u8,
    pub received: u8,
    // A bit for each id that was received.
    pub ids: u16,
    // The bytes that were joined.
    pub joined: u16,
}

// The acknowledgment header that came with fragment 0.
#[derive(Clone, Copy)]
pub struct AckHeader {
    pub number: PacketNumber,
    pub acked: PacketNumber,
    pub field: u32,
}

impl Entry {
    // Of a message of which nothing was received.
    pub fn opened(count: u8) -> Entry
        ensures { result ≡ blank count }
    {
        Entry {
            total: count,
            received: 0,
            ids: 0,
            joined: 0,
        }
    }

    pub fn pack(self) -> u64
        ensures { result ≡ entry_word self }
    {
        (self.total as u64)
            + (self.received as u64) * 256
            + (self.ids as u64) * 65536
            + (self.joined as u64) * 4294967296
    }

    pub fn unpack(word: u64) -> Entry
        ensures { result ≡ entry_of word }
    {
        Entry {
            total: (word % 256) as u8,
            received: (word / 256 % 256) as u8,
            ids: (word / 65536 % 65536) as u16,
            joined: (word / 4294967296 % 65536) as u16,
        }
    }
}

impl AckHeader {
    pub fn pack(self) -> u64
        ensures { result ≡ header_word self }
    {
        let number = self.number;
        let acked = self.acked;
        (number.0 as u64) + (acked.0 as u64) * 65536 + (self.field as u64) * 4294967296
    }

    pub fn unpack(word: u64) -> AckHeader
        ensures { result ≡ header_of word }
    {
        AckHeader {
            number: PacketNumber((word % 65536) as u16),
            acked: PacketNumber((word / 65536 % 65536) as u16),
            field: (word / 4294967296) as u32,
        }
    }
}
