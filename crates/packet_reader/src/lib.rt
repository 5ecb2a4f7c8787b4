// The thin reader of module 6: laminar's `PacketReader`, which holds the lent datagram and a position in it.
// `packet::read_headers` does the work. A caller that holds no reader calls `read` and `rest`, over plain slices.
#![tactic(auto)]

ghost use Rattle.std.specs.Prelude.{◌≡◌, drop};
ghost use Rattle.packet.specs.Read.{read_of};
ghost use Rattle.packet_reader.specs.Reader.{moved};

use packet::Found;
use terms::Refusal;

// Any position may be here; after headers that were found it is where the payload starts.
#[derive(Drop)]
pub struct PacketReader<'a> {
    pub buffer: &'a [u8],
    pub position: usize,
}

impl<'a> PacketReader<'a> {
    pub fn new(buffer: &'a [u8]) -> PacketReader<'a>
        ensures { (result.buffer ≡ buffer.entry) × (result.position ≡ 0) }
    {
        PacketReader {
            buffer,
            position: 0,
        }
    }

    // From the datagram's start, as laminar does. The position goes to the payload; a refusal leaves it.
    pub fn read_headers(&mut self, version: u16) -> Result<Found, Refusal>
        ensures { (result ≡ read_of version self.old.buffer.now) × (self.new ≡ moved self.old (read_of version self.old.buffer.now)) }
    {
        let found = packet::read_headers(version, self.buffer)?;
        self.position = found.at;
        Ok(found)
    }

    // The bytes from the position on, in their place; none where it lies past the end.
    pub fn read_payload(self) -> &'a [u8]
        ensures { result.now ≡ drop self.entry.position self.entry.buffer.now }
    {
        rest(self.buffer, self.position)
    }
}

// A datagram's headers through a reader, for callers that hold none; `rest` is then the payload.
pub fn read(version: u16, datagram: &[u8]) -> Result<Found, Refusal>
    ensures { result ≡ read_of version datagram.now }
{
    let mut reader = PacketReader::new(datagram);
    reader.read_headers(version)
}

// The bytes of a slice from a position on; none where it lies past the end.
pub fn rest(buffer: &[u8], position: usize) -> &[u8]
    ensures { result.now ≡ drop position buffer.now }
{
    &buffer[position.min(buffer.len())..]
}
