// The headers of a datagram: read from its bytes, and built into them with a payload.
// Read `read_headers` and `build` first; which headers follow the standard one is the table of the crate `packet_table`, whose
// types are named here too. It leaves out what a link does with a packet, and that reader and builder are inverse, which is the
// crate `packet_laws`; and it never holds a payload: what is read says where the payload starts.
#![tactic(auto)]

pub mod builder;
pub mod reader;

pub use builder::build;
pub use packet_table::{
    AckedPacketHeader, ArrangingHeader, DeliveryGuarantee, FragmentHeader, Headers,
    OrderingGuarantee, PacketType, StandardHeader, table,
};
pub use reader::read_headers;

// What a datagram reads as. The payload is the rest of it from `at` on, `&datagram[at..]`.
#[derive(Clone, Copy)]
pub struct Found {
    pub headers: Headers,
    pub at: usize,
}
