// From headers and a payload to a datagram, in the output that the caller lends.
ghost use Rattle.std.specs.Prelude.{◌≡◌, ◌+◌, ◌≤◌, length};
ghost use Rattle.packet_table.specs.Numbers.{written};
ghost use Rattle.packet_table.specs.Table.{follows};
ghost use Rattle.packet_table.specs.Layout.{size_of, part, standard_bytes, fragment_bytes, acked_bytes, arranging_bytes, following_bytes, payload_at, datagram};
ghost use Rattle.packet.specs.Build.{Builds, Writes};

use packet_table::table::Following;
use packet_table::{
    ACKED_PACKET_HEADER, ARRANGING_PACKET_HEADER, AckedPacketHeader, ArrangingHeader,
    FRAGMENT_HEADER_SIZE, FragmentHeader, Headers, STANDARD_HEADER_SIZE, StandardHeader, numbers,
    table,
};
use terms::Refusal;

// The datagram of these headers and this payload, at the start of the output; the bytes after it stay.
// 4 comes before 2: a combination that is not listed has no length to judge the output by.
#[tactic(auto, unfolding(crate::specs::Build::build_of))]
pub fn build(
    version: u16,
    headers: Headers,
    payload: &[u8],
    output: &mut [u8],
) -> Result<usize, Refusal>
    ensures { Builds version headers payload.now output.old result output.new }
{
    let standard = headers.standard;
    let following = table::headers_after(standard);
    if table::is_misfit(standard, following, payload.len()) {
        return Err(Refusal::BadHeader);
    }
    let at = table::payload_at(following, headers.fragment.id);
    if output.len() < at + payload.len() {
        return Err(Refusal::BadStorage);
    }
    Ok(write(version, following, headers, payload, output))
}

// The same where the table was read already and nothing is to be refused, and the datagram's length. For the crates above:
// requires what the table has for these headers, and room.
pub fn write(
    version: u16,
    following: Following,
    headers: Headers,
    payload: &[u8],
    output: &mut [u8],
) -> usize
    requires { (following ≡ follows headers.standard) × (payload_at following headers.fragment.id + length payload.now ≤ length output.old) }
    ensures { Writes (datagram version headers payload.now) output.old result output.new }
{
    let standard = headers.standard;
    let at = table::payload_at(following, headers.fragment.id);
    write_standard_header(version, standard, output);
    write_following(following, headers, output);
    copying::copy(payload, &mut output[at..]);
    at + payload.len()
}

fn write_standard_header(version: u16, standard: StandardHeader, output: &mut [u8])
    requires { 5 ≤ length output.old }
    ensures { output.new ≡ written 0 (standard_bytes version standard) output.old }
{
    numbers::write(output, 0, version.to_be_bytes());
    numbers::write(output, 2, [u8::from(standard.packet_type)]);
    numbers::write(output, 3, [u8::from(standard.delivery)]);
    numbers::write(output, 4, [u8::from(standard.ordering)]);
}

// The headers after the standard one, each where the one before it ends.
#[tactic(auto, unfolding(packet_table::specs::Layout::following_bytes))]
fn write_following(following: Following, headers: Headers, output: &mut [u8])
    requires { payload_at following headers.fragment.id ≤ length output.old }
    ensures { output.new ≡ written 5 (following_bytes following headers) output.old }
{
    let fragment = headers.fragment;
    let acked = headers.acked;
    let arranging = headers.arranging;
    let has_fragment = table::has_fragment(following);
    let has_acked = table::has_acked(following, fragment.id);
    let has_arranging = table::has_arranging(following);
    let acked_at = write_fragment_header(fragment, has_fragment, STANDARD_HEADER_SIZE, output);
    let arranging_at = write_acknowledge_header(acked, has_acked, acked_at, output);
    write_arranging_header(arranging, has_arranging, arranging_at, output);
}

// Each of these answers the place after the header, where it is there.
fn write_fragment_header(
    fragment: FragmentHeader,
    there: bool,
    at: usize,
    output: &mut [u8],
) -> usize
    requires { at + size_of there 4 ≤ length output.old }
    ensures { (result ≡ at + size_of there 4) × (output.new ≡ written at (part there (fragment_bytes fragment)) output.old) }
{
    if !there {
        return at;
    }
    numbers::write(output, at, fragment.number.0.to_be_bytes());
    numbers::write(output, at + 2, [fragment.id]);
    numbers::write(output, at + 3, [fragment.count]);
    at + FRAGMENT_HEADER_SIZE
}

fn write_acknowledge_header(
    acked: AckedPacketHeader,
    there: bool,
    at: usize,
    output: &mut [u8],
) -> usize
    requires { at + size_of there 8 ≤ length output.old }
    ensures { (result ≡ at + size_of there 8) × (output.new ≡ written at (part there (acked_bytes acked)) output.old) }
{
    if !there {
        return at;
    }
    numbers::write(output, at, acked.number.0.to_be_bytes());
    numbers::write(output, at + 2, acked.acked.0.to_be_bytes());
    numbers::write(output, at + 4, acked.field.to_be_bytes());
    at + ACKED_PACKET_HEADER
}

fn write_arranging_header(
    arranging: ArrangingHeader,
    there: bool,
    at: usize,
    output: &mut [u8],
) -> usize
    requires { at + size_of there 3 ≤ length output.old }
    ensures { (result ≡ at + size_of there 3) × (output.new ≡ written at (part there (arranging_bytes arranging)) output.old) }
{
    if !there {
        return at;
    }
    numbers::write(output, at, arranging.index.0.to_be_bytes());
    numbers::write(output, at + 2, [arranging.stream]);
    at + ARRANGING_PACKET_HEADER
}
