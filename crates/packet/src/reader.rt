// From a datagram to its headers. Each function is over the datagram and a cursor; none copies the payload.
ghost use Rattle.std.specs.Prelude.{◌≡◌, ◌+◌, ◌≤◌, length};
ghost use Rattle.packet_table.specs.Layout.{size_of};
ghost use Rattle.packet.specs.Read.{standard_read, fragment_of, acked_of, arranging_of, following_read, read_of, past_of};

use crate::Found;
use packet_table::numbers::{read_u16, read_u32};
use packet_table::table::Following;
use packet_table::{
    ACKED_PACKET_HEADER, ARRANGING_PACKET_HEADER, AckedPacketHeader, ArrangingHeader,
    DeliveryGuarantee, FRAGMENT_HEADER_SIZE, FragmentHeader, Headers, OrderingGuarantee,
    PacketType, STANDARD_HEADER_SIZE, StandardHeader, table,
};
use serial::{ItemId, PacketNumber};
use terms::Refusal;

// A place in a datagram.
#[derive(Clone, Copy, Debug, PartialEq, Eq)]
pub struct Cursor {
    pub at: usize,
}

// 3 for the standard header, 4, 3 for the others.
pub fn read_headers(version: u16, datagram: &[u8]) -> Result<Found, Refusal>
    ensures { result ≡ read_of version datagram.now }
{
    if datagram.len() < STANDARD_HEADER_SIZE {
        return Err(Refusal::CouldNotReadHeader);
    }
    let standard = read_standard_header(version, datagram)?;
    let following = table::headers_after(standard);
    if table::is_misfit(standard, following, datagram.len() - STANDARD_HEADER_SIZE) {
        return Err(Refusal::BadHeader);
    }
    read_following(datagram, standard, following)
}

// The headers after the standard one, each where the one before it ends.
#[tactic(auto, unfolding(crate::specs::Read::following_read, crate::specs::Read::headers_of))]
fn read_following(
    datagram: &[u8],
    standard: StandardHeader,
    following: Following,
) -> Result<Found, Refusal>
    requires { 5 ≤ length datagram.now }
    ensures { result ≡ following_read standard following datagram.now }
{
    let start = Cursor {
        at: STANDARD_HEADER_SIZE,
    };
    let has_fragment = table::has_fragment(following);
    let after_fragment = start
        .past(datagram, has_fragment, FRAGMENT_HEADER_SIZE)
        .ok_or(Refusal::CouldNotReadHeader)?;
    let fragment = read_fragment_header(datagram, start, has_fragment);
    let has_acked = table::has_acked(following, fragment.id);
    let after_acked = after_fragment
        .past(datagram, has_acked, ACKED_PACKET_HEADER)
        .ok_or(Refusal::CouldNotReadHeader)?;
    let acked = read_acknowledge_header(datagram, after_fragment, has_acked);
    let has_arranging = table::has_arranging(following);
    let payload = after_acked
        .past(datagram, has_arranging, ARRANGING_PACKET_HEADER)
        .ok_or(Refusal::CouldNotReadHeader)?;
    let arranging = read_arranging_header(datagram, after_acked, has_arranging);
    Ok(Found {
        headers: Headers {
            standard,
            fragment,
            acked,
            arranging,
        },
        at: payload.at,
    })
}

// 4 where the version word differs, or a type, delivery or ordering byte is unknown.
fn read_standard_header(version: u16, datagram: &[u8]) -> Result<StandardHeader, Refusal>
    requires { 5 ≤ length datagram.now }
    ensures { result ≡ standard_read version datagram.now }
{
    if read_u16(datagram, 0) != version {
        return Err(Refusal::BadHeader);
    }
    Ok(StandardHeader {
        packet_type: PacketType::try_from(datagram[2])?,
        delivery: DeliveryGuarantee::try_from(datagram[3])?,
        ordering: OrderingGuarantee::try_from(datagram[4])?,
    })
}

// Of this and the next two `there` says whether the header follows; the datagram has its bytes then. One that does not is read as
// zeros, as `Headers` has it, and not as an Option.
fn read_fragment_header(datagram: &[u8], cursor: Cursor, there: bool) -> FragmentHeader
    requires { cursor.at + size_of there 4 ≤ length datagram.now }
    ensures { result ≡ fragment_of there datagram.now cursor.at }
{
    if !there {
        return FragmentHeader {
            number: PacketNumber(0),
            id: 0,
            count: 0,
        };
    }
    let at = cursor.at;
    FragmentHeader {
        number: PacketNumber(read_u16(datagram, at)),
        id: datagram[at + 2],
        count: datagram[at + 3],
    }
}

fn read_acknowledge_header(datagram: &[u8], cursor: Cursor, there: bool) -> AckedPacketHeader
    requires { cursor.at + size_of there 8 ≤ length datagram.now }
    ensures { result ≡ acked_of there datagram.now cursor.at }
{
    if !there {
        return AckedPacketHeader {
            number: PacketNumber(0),
            acked: PacketNumber(0),
            field: 0,
        };
    }
    let at = cursor.at;
    AckedPacketHeader {
        number: PacketNumber(read_u16(datagram, at)),
        acked: PacketNumber(read_u16(datagram, at + 2)),
        field: read_u32(datagram, at + 4),
    }
}

fn read_arranging_header(datagram: &[u8], cursor: Cursor, there: bool) -> ArrangingHeader
    requires { cursor.at + size_of there 3 ≤ length datagram.now }
    ensures { result ≡ arranging_of there datagram.now cursor.at }
{
    if !there {
        return ArrangingHeader {
            index: ItemId(0),
            stream: 0,
        };
    }
    let at = cursor.at;
    ArrangingHeader {
        index: ItemId(read_u16(datagram, at)),
        stream: datagram[at + 2],
    }
}

impl Cursor {
    // Past a header of `size` bytes, where it is there.
    fn past(self, datagram: &[u8], there: bool, size: usize) -> Option<Cursor>
        ensures { result ≡ past_of (length datagram.now) self.at there size }
    {
        if !there {
            return Some(self);
        }
        let at = self.at.checked_add(size)?;
        (at <= datagram.len()).then_some(Cursor { at })
    }
}
