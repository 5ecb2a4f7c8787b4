// 2, which a user's call tries after 1, and 5.
ghost use Rattle.std.specs.Prelude.{◌≡◌, true};
ghost use Rattle.terms.specs.Sizes.{in_range};
ghost use Rattle.acks.specs.Gate.{lent, flight_lent, too_long};

use flight::SentPacket;
use terms::Sizes;

// Nothing that is lent is shorter than stated. Requires sizes in range.
pub fn is_lent(
    sizes: Sizes,
    received: &[u32],
    number: &[u32],
    records: &[u32],
    bytes: &[u8],
) -> bool
    requires { in_range sizes ≡ true }
    ensures { result ≡ lent sizes received.now number.now records.now bytes.now }
{
    if received.len() < received::SLOTS {
        return false;
    }
    if !is_flight_lent(sizes, number, records) {
        return false;
    }
    sizes.packets_in_flight * (16 * sizes.fragment_size) <= bytes.len()
}

// The columns of the packets in flight are not shorter than stated.
pub fn is_flight_lent(sizes: Sizes, number: &[u32], records: &[u32]) -> bool
    ensures { result ≡ flight_lent sizes number.now records.now }
{
    sizes.packets_in_flight <= number.len() && sizes.packets_in_flight <= records.len()
}

// 5: a payload to send is over 65,535 bytes, or over F and not unordered. Whatever is in flight is reliable.
pub fn is_too_long(sizes: Sizes, sent: SentPacket, count: usize) -> bool
    ensures { result ≡ too_long sizes sent count }
{
    if 65535 < count {
        return true;
    }
    if sizes.fragment_size < count {
        return sent.ordering != 0;
    }
    false
}
